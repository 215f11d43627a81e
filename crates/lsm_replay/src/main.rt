// Asks the ported functions what standard input says that the Rust was asked, and compares every number of the answers. A line
// is as vectors::text has it; tools/record writes the list, and its README.md says what the numbers are. The list begins with lines that
// are wrong on purpose (tools/wrong_lines.py).
#![tactic(auto)]

ghost use Rattle.std.specs.Prelude.{◌+◌, ◌≤◌, length};

use buffers::{read_full, zeros};
use std::io;
use vectors::report::{Tally, report};
use vectors::text::Lines;

mod answer;
mod cz;
mod ground;
mod voxels;

// How the answers compare.
#[derive(Clone, Copy)]
struct Tallies {
    plain: Tally,
    voxels: Tally,
    blocks: Tally,
}

// What a line asks for goes by its letter. A letter that stands for nothing differs.
fn compare(text: &[u8]) -> Tallies
    ensures lines { result.plain.cases + result.voxels.cases + result.blocks.cases ≤ length text.now }
    ensures differ { (result.plain.differ ≤ result.plain.cases) × (result.voxels.differ ≤ result.voxels.cases) × (result.blocks.differ ≤ result.blocks.cases) }
{
    let mut plain = Tally::default();
    let mut voxels = Tally::default();
    let mut blocks = Tally::default();
    let mut lines = Lines::<20, 320>::new(text);
    while let Some(line) = lines.read() {
        let parts = line.said;
        match line.letter {
            b'b' => plain.count(parts.is_some_and(|(said, bytes)| ground::read(said, bytes))),
            b's' => plain.count(parts.is_some_and(|(said, _)| ground::size(said))),
            b'r' => plain.count(parts.is_some_and(|(said, _)| ground::region(said))),
            b'm' => plain.count(parts.is_some_and(|(said, _)| ground::empty(said))),
            b'l' => plain.count(parts.is_some_and(|(said, _)| ground::scenes(said))),
            b'e' => plain.count(parts.is_some_and(|(said, _)| ground::pages(said))),
            b'p' => plain.count(parts.is_some_and(|(said, _)| ground::page(said))),
            b'c' => voxels.count(parts.is_some_and(|(said, _)| voxels::voxels(said))),
            b'z' => blocks.count(parts.is_some_and(|(said, file)| cz::block(said, file))),
            _ => plain.count(false),
        }
    }
    Tallies {
        plain,
        voxels,
        blocks,
    }
}

fn main(rt: HostRuntime) -> io::Result<()> {
    let mut text = zeros::<524288>();
    let n = read_full(&mut rt.stdin(), &mut text)?;
    let t = compare(&text[..n]);
    let mut out = rt.stdout();
    report(&mut out, b"ground ", t.plain)?;
    report(&mut out, b"calibration ", t.voxels)?;
    report(&mut out, b"cz ", t.blocks)
}
