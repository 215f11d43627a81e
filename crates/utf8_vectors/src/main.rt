// Decodes the bytes of each line of standard input, and compares with the text that the line says. A line has the bytes, a
// space and the text, both as vectors::text has bytes. tools/utf8_vectors.rs writes the list, and tools/wrong_lines.py begins it with lines
// that are wrong on purpose.
#![tactic(auto)]

ghost use Rattle.std.specs.Prelude.{◌≡◌, true, ◌<◌, ◌≤◌, length, IfSome};
ghost use Rattle.lsm_format.specs.Utf8.{lossy};

use buffers::{read_full, zeros};
use std::io;
use utf8::decode_lossy;
use vectors::report::Tally;
use vectors::text::bytes;

// Whether the bytes decode to the text, into memory that has room for it.
#[tactic(auto, unfolding(lsm_format::specs::Lent::lend, lsm_format::specs::Answer::bind))]
fn agrees(bytes: &[u8], text: &[u8], out: &mut [u8]) -> bool
    ensures { result ≡ true → lossy bytes.now ≡ text.now }
{
    let Ok(n) = decode_lossy(bytes, out) else {
        return false;
    };
    &out[..n] == text
}

// Whether the line that a list begins with agrees, and the list behind it. None where it hasn't the form.
fn line(list: &[u8]) -> Option<(bool, &[u8])>
    ensures { IfSome result (λ r. length r.1.now < length list.now) }
{
    let (encoded, rest) = bytes::<32>(list);
    let (text, rest) = bytes::<96>(rest.strip_prefix(b" ")?);
    let rest = rest.strip_prefix(b"\n")?;
    let mut out = [0u8; 96];
    let agrees = agrees(encoded.as_slice(), text.as_slice(), &mut out[..text.len()]);
    Some((agrees, rest))
}

// A line that hasn't the form counts as one that differs, and ends the list.
fn compare(list: &[u8]) -> Tally
    ensures lines { result.cases ≤ length list.now }
    ensures differ { result.differ ≤ result.cases }
{
    let mut tally = Tally::default();
    let mut rest = list;
    while !rest.is_empty() {
        let (agrees, after) = line(rest).unwrap_or((false, &[]));
        tally.count(agrees);
        rest = after;
    }
    tally
}

fn main(rt: HostRuntime) -> io::Result<()> {
    let mut text = zeros::<131072>();
    let n = read_full(&mut rt.stdin(), &mut text)?;
    let t = compare(&text[..n]);
    println!(rt; "{} vectors, {} differ", t.cases, t.differ)
}
