// lsm-list: prints what the LSM file on standard input says of its pictures. One byte more than the longest file is read, so that a
// longer one is told from it.
#![tactic(auto)]

ghost use Rattle.std.specs.Prelude.{IfOk, IfErr, IfSome};
ghost use Rattle.std.specs.Io.KnownBytes.{Appends};
ghost use Rattle.lsm_format.specs.Printout.{printout};
ghost use Rattle.lsm_list.specs.Input.{unreadable};

use buffers::{read_full, zeros};
use lsm_printout::print;
use std::io;
use std::io::{Read, Write};

// Lists an input: writes the printout of all its bytes, or the one line `unreadable` where a read fails, and then answers that error in
// the `Ok`. The outer error is of a write that failed.
#[tactic(auto, using(crate::proofs::Front::of_front), unfolding(crate::specs::Input::unreadable, lsm_format::specs::Printout::text))]
fn list<R: Read, W: Write>(input: &mut R, out: &mut W) -> io::Result<io::Result<()>>
    ensures printed { IfOk result (λ read. IfOk read (λ _. IfSome (R.remaining input.old) (λ all. Appends (W.contents out.old) (W.contents out.new) (printout all)))) }
    ensures unread { IfOk result (λ read. IfErr read (λ _. Appends (W.contents out.old) (W.contents out.new) unreadable)) }
{
    let mut file = zeros::<65537>();
    match read_full(input, &mut file) {
        Ok(n) => {
            print(out, &file[..n])?;
            Ok(Ok(()))
        }
        Err(error) => {
            out.write_all(b"unreadable\n")?;
            Ok(Err(error))
        }
    }
}

fn main(rt: HostRuntime) -> io::Result<()> {
    list(&mut rt.stdin(), &mut rt.stdout())?
}
