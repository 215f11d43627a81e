// The lines asked of the C functions: the number that is returned, every word of `answer`, and lent memory.
ghost use Rattle.std.specs.Prelude.{◌≡◌, true, ◌+◌, ◌≤◌, length};
ghost use Rattle.lsm_words.specs.Description.{description_length};
ghost use Rattle.lsm_replay_pictures.specs.Code.{said_words};

use crate::picture::{ROOM, of_opened};
use lsm_c::pictures::{lsm_plane, lsm_region};
use lsm_words::answers::PICTURE_WORDS;
use lsm_words::description::{DESCRIPTION_WORDS, description_words};
use vectors::asked::{coordinate, rectangle};
use vectors::same::{BYTE, WORD, same_call};

// How many words of an answer a line says at most: 0, the height, the width and the number of bytes, or a refusal's five.
fn said_words(number: usize) -> usize
    ensures { result ≡ said_words number }
{
    if number == 0 { 4 } else { 5 }
}

// Whether what is said is the answer of the C function that is asked, and the samples.
fn answered<F: FnOnce(&mut [u8], &mut [usize; PICTURE_WORDS]) -> usize>(
    said: &[usize],
    out: &mut [u8],
    ask: F,
) -> bool
    requires { F.IsAlwaysCallable ask }
{
    let mut answer = [WORD; PICTURE_WORDS];
    let number = ask(out, &mut answer);
    same_call(said, number, &answer, said_words(number), out, BYTE)
}

// Whether what is said is `lsm_plane`'s answer, and the samples.
fn plane_agrees(
    said: &[usize],
    file: &[u8],
    description: &[usize; DESCRIPTION_WORDS],
    table: &[usize],
    out: &mut [u8],
) -> bool
    ensures { result ≡ true → 4 ≤ length said.now }
{
    let Some((co, said)) = coordinate(said) else {
        return false;
    };
    answered(said, out, |out, answer| {
        lsm_plane(
            file,
            description,
            table,
            co.scene,
            co.t,
            co.c,
            co.z,
            out,
            answer,
        )
    })
}

// Whether what is said is `lsm_region`'s answer, and the samples.
fn region_agrees(
    said: &[usize],
    file: &[u8],
    description: &[usize; DESCRIPTION_WORDS],
    table: &[usize],
    out: &mut [u8],
) -> bool
    ensures { result ≡ true → 8 ≤ length said.now }
{
    let Some((co, said)) = coordinate(said) else {
        return false;
    };
    let Some((rect, said)) = rectangle(said) else {
        return false;
    };
    answered(said, out, |out, answer| {
        lsm_region(
            file,
            description,
            table,
            co.scene,
            co.t,
            co.c,
            co.z,
            rect.x,
            rect.y,
            rect.w,
            rect.h,
            out,
            answer,
        )
    })
}

// Each of these and of the next two says which function is asked, and nothing else.

pub fn plane_of(said: &[usize], file: &[u8]) -> bool
    ensures { result ≡ true → 1 ≤ length said.now }
{
    of_opened(said, file, |said, file, d, table, out| {
        plane_agrees(said, file, &description_words(d), table, out)
    })
}

pub fn region_of(said: &[usize], file: &[u8]) -> bool
    ensures { result ≡ true → 1 ≤ length said.now }
{
    of_opened(said, file, |said, file, d, table, out| {
        region_agrees(said, file, &description_words(d), table, out)
    })
}

// Asks with the description and the table that the line hands in: the room, the description, the table's length and the table come first.
fn of_handed<F: Fn(&[usize], &[u8], &[usize; DESCRIPTION_WORDS], &[usize], &mut [u8]) -> bool>(
    said: &[usize],
    file: &[u8],
    ask: F,
) -> bool
    requires { F.IsAlwaysCallable ask }
    ensures { result ≡ true → 2 + description_length ≤ length said.now }
{
    let [room, said @ ..] = said else {
        return false;
    };
    let Some((description, said)) = said.split_first_chunk::<DESCRIPTION_WORDS>() else {
        return false;
    };
    let [words, said @ ..] = said else {
        return false;
    };
    let Some((table, said)) = said.split_at_checked(*words) else {
        return false;
    };
    let mut memory = [BYTE; ROOM];
    let Some(out) = memory.get_mut(..*room) else {
        return false;
    };
    ask(said, file, description, table, out)
}

pub fn plane_handed(said: &[usize], file: &[u8]) -> bool
    ensures { result ≡ true → 2 + description_length ≤ length said.now }
{
    of_handed(said, file, plane_agrees)
}

pub fn region_handed(said: &[usize], file: &[u8]) -> bool
    ensures { result ≡ true → 2 + description_length ≤ length said.now }
{
    of_handed(said, file, region_agrees)
}
