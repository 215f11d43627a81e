// What stands at a directory's two ends. Its ghost fields say how large the two numbers can be, so that the places reckoned from them fit the
// machine. A struct with ghost fields brings every `ghost use` of its file along; `ends_of` of specs/Code.antt names this struct and lib.rt
// imports `ends_of`, so in lib.rt the imports would go in a circle.
ghost use Rattle.std.specs.Prelude.{ℕ, ◌<◌, ◌^◌};

// How many entries a directory has, and where the next directory stands.
#[derive(Clone, Copy)]
pub struct Ends {
    pub entries: usize,
    pub next: usize,
    ghost few: { entries < 2 ^ 16 },
    ghost near: { next < 2 ^ 32 },
}
