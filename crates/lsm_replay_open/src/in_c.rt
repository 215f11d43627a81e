// The lines asked of the C functions: the number that is returned, every word of `answer`, and lent memory.
ghost use Rattle.std.specs.Prelude.{◌≡◌, true, ◌≤◌, length};

use crate::{NAME, TABLE, description_of};
use lsm_c::{lsm_channel, lsm_open};
use lsm_words::answers::{CHANNEL_WORDS, OPEN_WORDS};
use lsm_words::description::{DESCRIPTION_WORDS, description_words};
use vectors::same::{BYTE, WORD, same_call};

// The words of a channel's answer that a line says; the last is 0.
pub const FOUND: usize = 7;

// Whether `lsm_open` gives the line's answer.
pub fn opening(said: &[usize], file: &[u8]) -> bool
    ensures { result ≡ true → 1 ≤ length said.now }
{
    let [room, said @ ..] = said else {
        return false;
    };
    let mut memory = [WORD; TABLE];
    let Some(table) = memory.get_mut(..*room) else {
        return false;
    };
    let mut answer = [WORD; OPEN_WORDS];
    let number = lsm_open(file, table, &mut answer);
    same_call(said, number, &answer, OPEN_WORDS, table, WORD)
}

// Whether `lsm_channel` with room for a name lent gives what is said.
fn found(
    said: &[usize],
    file: &[u8],
    description: &[usize; DESCRIPTION_WORDS],
    channel: usize,
    room: usize,
) -> bool {
    let mut memory = [BYTE; NAME];
    let Some(name) = memory.get_mut(..room) else {
        return false;
    };
    let mut answer = [WORD; CHANNEL_WORDS];
    let number = lsm_channel(file, description, channel, name, &mut answer);
    same_call(said, number, &answer, FOUND, name, BYTE)
}

// Whether the description that opening gives leads `lsm_channel` to the line's answer. A file that isn't opened leads to none.
pub fn lookup(said: &[usize], file: &[u8]) -> bool
    ensures { result ≡ true → 2 ≤ length said.now }
{
    let [c, room, said @ ..] = said else {
        return false;
    };
    let Some(d) = description_of(file) else {
        return false;
    };
    found(said, file, &description_words(d), *c, *room)
}

// Whether `lsm_channel` gives the line's answer where a word of the description that opening gives is another: the word's place, its
// value, the channel and the room for a name. So words that are no description are handed in too.
pub fn described(said: &[usize], file: &[u8]) -> bool
    ensures { result ≡ true → 4 ≤ length said.now }
{
    let [place, value, c, room, said @ ..] = said else {
        return false;
    };
    let Some(d) = description_of(file) else {
        return false;
    };
    let mut description = description_words(d);
    let Some(word) = description.get_mut(*place) else {
        return false;
    };
    *word = *value;
    found(said, file, &description, *c, *room)
}
