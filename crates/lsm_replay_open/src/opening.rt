// A line `o`: the table's room in words, and the answer that opening the line's file gives.
ghost use Rattle.std.specs.Prelude.{◌≡◌, true, ◌≤◌, length};

use crate::TABLE;
use lsm_reader::open::open_file;
use lsm_words::answers::open_words;
use vectors::same::{WORD, same_result};

// Whether opening gives the line's answer.
pub fn opening(said: &[usize], file: &[u8]) -> bool
    ensures { result ≡ true → 1 ≤ length said.now }
{
    let [room, said @ ..] = said else {
        return false;
    };
    let mut memory = [WORD; TABLE];
    let Some(table) = memory.get_mut(..*room) else {
        return false;
    };
    match open_file(file, table) {
        Ok(o) => same_result(said, open_words(Ok(o)).as_slice(), table, o.words, WORD),
        Err(r) => same_result(said, r.numbers().as_slice(), table, 0, WORD),
    }
}
