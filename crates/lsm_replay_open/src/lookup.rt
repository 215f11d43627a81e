// A line `n`: a channel and the name's room in bytes, and the answer that looking the channel up in the line's file gives.
ghost use Rattle.std.specs.Prelude.{◌≡◌, true, ◌≤◌, length};

use crate::in_c::FOUND;
use crate::{NAME, description_of};
use lsm_description::channel;
use lsm_words::answers::channel_words;
use vectors::same::{BYTE, same_result};

// Whether the description that opening gives leads to the line's answer. A file that isn't opened leads to none.
pub fn lookup(said: &[usize], file: &[u8]) -> bool
    ensures { result ≡ true → 2 ≤ length said.now }
{
    let [c, room, said @ ..] = said else {
        return false;
    };
    let Some(d) = description_of(file) else {
        return false;
    };
    let mut memory = [BYTE; NAME];
    let Some(name) = memory.get_mut(..*room) else {
        return false;
    };
    match channel(file, d, *c, name) {
        Ok(m) => same_result(
            said,
            &channel_words(Ok(m))[..FOUND],
            name,
            m.name.unwrap_or(0),
            BYTE,
        ),
        Err(r) => same_result(said, r.numbers().as_slice(), name, 0, BYTE),
    }
}
