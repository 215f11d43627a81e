// Memory of zeros, and how an input is read into lent memory.
#![tactic(auto)]

ghost use Rattle.std.specs.Prelude.{◌≡◌, ◌<◌, length, take, IfOk, EachIndex, slice_index};
ghost use Rattle.std.specs.Io.{ReadsAtMost};
ghost use Rattle.std.specs.Io.KnownBytes.{Consumes, IsAtEnd};

use std::io;
use std::io::Read;

// As many zeros as the type says. A proof that meets `[0; 524288]` itself unfolds it, zero by zero; of this it knows the contract alone.
pub fn zeros<const N: usize>() -> [u8; N]
    ensures len { N ≡ length result }
    ensures zero { EachIndex result (λ k. slice_index result k ≡ 0) }
{
    [0; N]
}

// Reads until `buf` is full or the input ends, and answers how many bytes it put at the front of `buf`: all that the input had, where
// they are fewer than there is room for. A read that a signal interrupts counts as one that failed.
#[tactic(auto, using(crate::proofs::Parts::read_more))]
pub fn read_full<R: Read>(input: &mut R, buf: &mut [u8]) -> io::Result<usize>
    ensures inside { ReadsAtMost result buf.new }
    ensures len { length buf.new ≡ length buf.old }
    ensures bytes { IfOk result (λ n. Consumes (R.remaining input.old) (R.remaining input.new) (take n buf.new)) }
    ensures whole { IfOk result (λ n. n < length buf.new → IsAtEnd (R.remaining input.new)) }
{
    let mut n = 0;
    // A read says how far `n` goes, so this is no count. Of std's readers `read_exact` doesn't say how many bytes a short input had, and
    // `read_to_end` wants a heap.
    while n < buf.len() {
        let more = input.read(&mut buf[n..])?;
        if more == 0 {
            return Ok(n);
        }
        n += more;
    }
    Ok(n)
}
