// Opens the files of standard input and looks their channels up, once by the functions and once by the C functions, and compares every
// number with the Rust's answers, and the lent memory past an answer with what was in it. A line is as vectors::text has it, with the
// letter `o` or `n`, or `w` for a lookup in C with another word in the description. The list begins with lines that are wrong on purpose
// (tools/wrong_lines.py).
#![tactic(auto)]

ghost use Rattle.std.specs.Prelude.{◌≡◌, ◌+◌, ◌≤◌, length};

use buffers::{read_full, zeros};
use lsm_description::Description;
use lsm_reader::open::open_file;
use std::io;
use vectors::report::{Tally, report};
use vectors::text::Lines;

mod in_c;
mod lookup;
mod opening;

// The largest table and the longest name that a line asks for.
const TABLE: usize = 64;

const NAME: usize = 4096;

// The description that opening a file gives. A file that isn't opened has none.
fn description_of(file: &[u8]) -> Option<Description> {
    let opened = open_file(file, &mut [0; TABLE]).ok()?;
    Some(opened.description)
}

// How the functions' answers compare, and the C functions'.
#[derive(Clone, Copy)]
struct Tallies {
    openings: Tally,
    lookups: Tally,
    opened: Tally,
    found: Tally,
    described: Tally,
}

// What a line asks for goes by its letter. A letter that stands for nothing differs.
fn compare(text: &[u8]) -> Tallies
    ensures lines { result.openings.cases + result.lookups.cases + result.described.cases ≤ length text.now }
    ensures opened { result.opened.cases ≡ result.openings.cases }
    ensures found { result.found.cases ≡ result.lookups.cases }
    ensures differ { (result.openings.differ ≤ result.openings.cases) × (result.lookups.differ ≤ result.lookups.cases) × (result.opened.differ ≤ result.opened.cases) }
    ensures differ_2 { (result.found.differ ≤ result.found.cases) × (result.described.differ ≤ result.described.cases) }
{
    let mut openings = Tally::default();
    let mut lookups = Tally::default();
    let mut opened = Tally::default();
    let mut found = Tally::default();
    let mut described = Tally::default();
    let mut lines = Lines::<4096, 4096>::new(text);
    while let Some(line) = lines.read() {
        let parts = line.said;
        match line.letter {
            b'n' => {
                lookups.count(parts.is_some_and(|(said, file)| lookup::lookup(said, file)));
                found.count(parts.is_some_and(|(said, file)| in_c::lookup(said, file)));
            }
            b'w' => described.count(parts.is_some_and(|(said, file)| in_c::described(said, file))),
            b'o' => {
                openings.count(parts.is_some_and(|(said, file)| opening::opening(said, file)));
                opened.count(parts.is_some_and(|(said, file)| in_c::opening(said, file)));
            }
            _ => {
                openings.count(false);
                opened.count(false);
            }
        }
    }
    Tallies {
        openings,
        lookups,
        opened,
        found,
        described,
    }
}

fn main(rt: HostRuntime) -> io::Result<()> {
    let mut text = zeros::<655360>();
    let n = read_full(&mut rt.stdin(), &mut text)?;
    let t = compare(&text[..n]);
    let mut out = rt.stdout();
    report(&mut out, b"openings ", t.openings)?;
    report(&mut out, b"channels ", t.lookups)?;
    report(&mut out, b"openings in C ", t.opened)?;
    report(&mut out, b"channels in C ", t.found)?;
    report(&mut out, b"descriptions in C ", t.described)
}
