// Asks for planes and rectangles of the files of standard input, once by the functions and once by the C functions, and compares every
// answer with the Rust's, sample by sample, and the lent memory past an answer with what was in it. A line is as vectors::text has it,
// with the letter `p` or `r`, or `q` or `h` for the same in C with a description and a table that the line hands in. The list begins with lines
// that are wrong on purpose (tools/wrong_lines.py).
#![tactic(auto)]

ghost use Rattle.std.specs.Prelude.{◌≡◌, ◌+◌, ◌≤◌, length};

use buffers::{read_full, zeros};
use std::io;
use vectors::report::{Tally, report};
use vectors::text::Lines;

mod in_c;
mod picture;

// How the functions' answers compare, and the C functions'.
#[derive(Clone, Copy)]
struct Tallies {
    planes: Tally,
    rectangles: Tally,
    pictured: Tally,
    windowed: Tally,
    handed: Tally,
}

// What a line asks for goes by its letter. A letter that stands for nothing differs.
fn compare(text: &[u8]) -> Tallies
    ensures lines { result.planes.cases + result.rectangles.cases + result.handed.cases ≤ length text.now }
    ensures pictured { result.pictured.cases ≡ result.planes.cases }
    ensures windowed { result.windowed.cases ≡ result.rectangles.cases }
    ensures differ { (result.planes.differ ≤ result.planes.cases) × (result.rectangles.differ ≤ result.rectangles.cases) × (result.pictured.differ ≤ result.pictured.cases) }
    ensures differ_2 { (result.windowed.differ ≤ result.windowed.cases) × (result.handed.differ ≤ result.handed.cases) }
{
    let mut planes = Tally::default();
    let mut rectangles = Tally::default();
    let mut pictured = Tally::default();
    let mut windowed = Tally::default();
    let mut handed = Tally::default();
    let mut lines = Lines::<1024, 4096>::new(text);
    while let Some(line) = lines.read() {
        let parts = line.said;
        match line.letter {
            b'p' => {
                planes.count(parts.is_some_and(|(said, file)| picture::plane_of(said, file)));
                pictured.count(parts.is_some_and(|(said, file)| in_c::plane_of(said, file)));
            }
            b'r' => {
                rectangles.count(parts.is_some_and(|(said, file)| picture::region_of(said, file)));
                windowed.count(parts.is_some_and(|(said, file)| in_c::region_of(said, file)));
            }
            b'q' => handed.count(parts.is_some_and(|(said, file)| in_c::plane_handed(said, file))),
            b'h' => handed.count(parts.is_some_and(|(said, file)| in_c::region_handed(said, file))),
            _ => handed.count(false),
        }
    }
    Tallies {
        planes,
        rectangles,
        pictured,
        windowed,
        handed,
    }
}

fn main(rt: HostRuntime) -> io::Result<()> {
    let mut text = zeros::<524288>();
    let n = read_full(&mut rt.stdin(), &mut text)?;
    let t = compare(&text[..n]);
    let mut out = rt.stdout();
    report(&mut out, b"planes ", t.planes)?;
    report(&mut out, b"rectangles ", t.rectangles)?;
    report(&mut out, b"planes in C ", t.pictured)?;
    report(&mut out, b"rectangles in C ", t.windowed)?;
    report(&mut out, b"handed in, in C ", t.handed)
}
