// Lists several files, one after another: on standard input stand, for each, its length as four bytes, the lowest first, and then
// its bytes. tools/list_files.py makes them.
#![tactic(auto)]

ghost use Rattle.std.specs.Prelude.{◌≡◌, OnOk, option_map};
ghost use Rattle.std.specs.Io.KnownBytes.{Appends};
ghost use Rattle.lsm_list_files.specs.Stored.{first_file, printouts};

use buffers::{read_full, zeros};
use lsm_printout::print;
use std::io;
use std::io::Write;

// The file at the front, and what stands behind it; none where no whole file stands there.
#[tactic(auto, using(crate::proofs::Listing::first))]
fn first_file(all: &[u8]) -> Option<(&[u8], &[u8])>
    ensures { option_map (λ p. (p.0.now, p.1.now)) result ≡ first_file all.now }
{
    let (len, rest) = all.split_first_chunk::<4>()?;
    rest.split_at_checked(u32::from_le_bytes(*len) as usize)
}

// Lists them all.
#[tactic(auto, using(crate::proofs::Listing::listing), unfolding(crate::specs::Stored::printouts, crate::specs::Stored::printouts_by))]
fn list_all<W: Write>(out: &mut W, all: &[u8]) -> io::Result<()>
    ensures { OnOk result (Appends (W.contents out.old) (W.contents out.new) (printouts all.now)) }
{
    let mut rest = all;
    while let Some((file, behind)) = first_file(rest) {
        print(out, file)?;
        rest = behind;
    }
    Ok(())
}

fn main(rt: HostRuntime) -> io::Result<()> {
    let mut all = zeros::<262144>();
    let n = read_full(&mut rt.stdin(), &mut all)?;
    list_all(&mut rt.stdout(), &all[..n])
}
