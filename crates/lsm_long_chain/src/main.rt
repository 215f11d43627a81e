// Opens a file of 1,000,000 directories and one of 1,000,001, which are too large to be stored: "The 1,000,001st visited directory is
// Parse; exactly 1,000,000 pass." A directory has no entry, so that all are full pages which agree, and what follows on the chain
// is a sample kind that isn't taken: 3. host/compare asks the Rust the same.
#![tactic(auto)]

ghost use Rattle.std.specs.Prelude.{◌≡◌, ◌+◌, ◌≤◌, length};

use buffers::zeros;
use lsm_c::lsm_open;
use lsm_words::answers::OPEN_WORDS;
use std::io;
use std::io::Write;

// Little-endian, the first directory at 8.
const HEADER: &[u8] = b"II\x2a\0\x08\0\0\0";

// The bytes of a directory: a count of 0, and the pointer to the next.
const DIRECTORY: usize = 6;

// The longer file: 1,000,001 directories.
const ROOM: usize = 6_000_014;

// Leads each directory to the next, as long as another one has room. The memory holds zeros where no pointer stands.
fn link(directories: &mut [u8])
    ensures { length directories.new ≡ length directories.old }
{
    let last = directories.len().saturating_sub(DIRECTORY);
    let mut next: u32 = 8;
    for directory in directories[..last].chunks_exact_mut(DIRECTORY) {
        next = next.saturating_add(6);
        directory[2..].copy_from_slice(&next.to_le_bytes());
    }
}

// Makes the file of the memory, opens it, and prints the number that opening returns.
fn tell<W: Write>(out: &mut W, name: &str, file: &mut [u8]) -> io::Result<()>
    requires { 8 ≤ length file.old }
    ensures { length file.new ≡ length file.old }
{
    let (header, directories) = file.split_at_mut(HEADER.len());
    header.copy_from_slice(HEADER);
    link(directories);
    let mut answer = [0usize; OPEN_WORDS];
    let number = lsm_open(file, &mut [], &mut answer);
    writeln!(out, "{name} directories: {number}")
}

// The same with the first bytes of the memory, where there are as many.
fn tell_of<W: Write>(out: &mut W, name: &str, bytes: usize, file: &mut [u8]) -> io::Result<()>
    requires { 8 ≤ bytes }
    ensures { length file.new ≡ length file.old }
{
    if bytes <= file.len() {
        return tell(out, name, &mut file[..bytes]);
    }
    Ok(())
}

// Both files in the memory, whose length is known from its type.
fn tell_both<W: Write>(out: &mut W, file: &mut [u8; ROOM]) -> io::Result<()>
    ensures { length file.new ≡ length file.old }
{
    tell_of(out, "1000000", ROOM - DIRECTORY, file)?;
    tell_of(out, "1000001", ROOM, file)
}

fn main(rt: HostRuntime) -> io::Result<()> {
    let mut file = zeros::<ROOM>();
    tell_both(&mut rt.stdout(), &mut file)
}
