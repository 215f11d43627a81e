// A line: the sample buffer's room in bytes, the coordinates, for a rectangle its four numbers, and the answer.
ghost use Rattle.std.specs.Prelude.{◌≡◌, true, ◌≤◌, length};
ghost use Rattle.lsm_replay_pictures.specs.Code.{count_of};

use lsm_description::Description;
use lsm_format::error::Refusal;
use lsm_reader::open::open_file;
use lsm_region::{Picture, plane, region};
use lsm_words::answers::picture_words;
use vectors::asked::{coordinate, rectangle};
use vectors::same::{BYTE, same_result};

// The largest sample buffer that a line lends, and the words of the table.
pub const ROOM: usize = 1024;

const WORDS: usize = 256;

// Asks with the description and the table that opening the line's file gives, and with room for the samples. A file that isn't opened
// agrees with nothing.
pub(crate) fn of_opened<F: Fn(&[usize], &[u8], Description, &[usize], &mut [u8]) -> bool>(
    said: &[usize],
    file: &[u8],
    ask: F,
) -> bool
    requires { F.IsAlwaysCallable ask }
    ensures { result ≡ true → 1 ≤ length said.now }
{
    let [room, said @ ..] = said else {
        return false;
    };
    let mut table = [0; WORDS];
    let Ok(o) = open_file(file, &mut table) else {
        return false;
    };
    let Some(table) = table.get(..o.words) else {
        return false;
    };
    let mut memory = [BYTE; ROOM];
    let Some(out) = memory.get_mut(..*room) else {
        return false;
    };
    ask(said, file, o.description, table, out)
}

// Whether what is said is the answer, with what the sample buffer holds after it: past the samples the bytes are as they were.
fn told(said: &[usize], a: Result<Picture, Refusal>, out: &[u8]) -> bool
    ensures { result ≡ true → length said.now ≡ count_of a }
{
    match a {
        Ok(p) => same_result(said, &picture_words(a)[..4], out, p.bytes, BYTE),
        Err(r) => same_result(said, r.numbers().as_slice(), out, 0, BYTE),
    }
}

// Whether what is said is the answer to a plane.
fn plane_agrees(
    said: &[usize],
    file: &[u8],
    d: Description,
    table: &[usize],
    out: &mut [u8],
) -> bool
    ensures { result ≡ true → 4 ≤ length said.now }
{
    let Some((co, said)) = coordinate(said) else {
        return false;
    };
    told(said, plane(file, d, table, co, out), out)
}

// Whether what is said is the answer to a rectangle.
fn region_agrees(
    said: &[usize],
    file: &[u8],
    d: Description,
    table: &[usize],
    out: &mut [u8],
) -> bool
    ensures { result ≡ true → 8 ≤ length said.now }
{
    let Some((co, said)) = coordinate(said) else {
        return false;
    };
    let Some((rect, said)) = rectangle(said) else {
        return false;
    };
    told(said, region(file, d, table, co, rect, out), out)
}

// Each of these two says which function is asked, and nothing else.

pub fn plane_of(said: &[usize], file: &[u8]) -> bool
    ensures { result ≡ true → 1 ≤ length said.now }
{
    of_opened(said, file, plane_agrees)
}

pub fn region_of(said: &[usize], file: &[u8]) -> bool
    ensures { result ≡ true → 1 ≤ length said.now }
{
    of_opened(said, file, region_agrees)
}
