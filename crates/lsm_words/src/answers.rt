// Answers as words: 0 and the values, or a refusal's row with zeros after it.
ghost use Rattle.std.specs.Prelude.{◌≡◌, ◌≤◌, ◌∷◌};
ghost use Rattle.lsm_format.specs.Code.{row_of, answer_by};
ghost use Rattle.lsm_channel_colors.specs.Code.{meta_of};
ghost use Rattle.lsm_reader.specs.Opening.{opened_of};
ghost use Rattle.lsm_region.specs.Code.{shape_of_picture};
ghost use Rattle.lsm_words.specs.Answers.{padded, open_words, color_words, channel_words, picture_words};

use crate::description::{DESCRIPTION_WORDS, description_words, optional_words};
use lsm_channel_colors::ChannelMeta;
use lsm_format::error::Refusal;
use lsm_reader::open::Opened;
use lsm_region::Picture;

// How many words an answer has: of opening, of a channel's lookup, of a picture.
pub const OPEN_WORDS: usize = 3 + DESCRIPTION_WORDS;

pub const CHANNEL_WORDS: usize = 8;

pub const PICTURE_WORDS: usize = 5;

// A refusal's row, with zeros after it. Each word is looked for in the row: a copy of the row's numbers, with zeros behind, would become calls of
// C's memcpy and memset, which the static library doesn't need otherwise.
#[tactic(auto, using(crate::proofs::Answered::padded_word, crate::proofs::Answered::padded_all))]
fn refusal_words<const N: usize>(r: Refusal) -> [usize; N]
    requires { 5 ≤ N }
    ensures { result ≡ padded N (row_of r) }
{
    let row = r.numbers();
    let mut words = [0; N];
    for (i, word) in words.iter_mut().enumerate() {
        *word = if i < row.len() { row[i] } else { 0 };
    }
    words
}

// 0, the directories visited, the words of the table, the description's words.
pub fn open_words(a: Result<Opened, Refusal>) -> [usize; OPEN_WORDS]
    ensures { result ≡ open_words (answer_by opened_of a) }
{
    match a {
        Ok(o) => {
            let mut words = [0; OPEN_WORDS];
            words[1] = o.visited;
            words[2] = o.words;
            words[3..].copy_from_slice(&description_words(o.description));
            words
        }
        Err(r) => refusal_words(r),
    }
}

// Whether there is a colour, and its red, green and blue.
#[tactic(auto, unfolding(crate::specs::Answers::color_words))]
fn color_words(color: Option<[u8; 3]>) -> [usize; 4]
    ensures { result ≡ color_words color }
{
    match color {
        None => [0; 4],
        Some(rgb) => {
            let [red, green, blue] = rgb;
            [1, red as usize, green as usize, blue as usize]
        }
    }
}

// 0, the colour's words, the name's words, and a 0.
#[tactic(auto, unfolding(crate::specs::Answers::color_words, crate::specs::Answers::name_words))]
pub fn channel_words(a: Result<ChannelMeta, Refusal>) -> [usize; CHANNEL_WORDS]
    ensures { result ≡ channel_words (answer_by meta_of a) }
{
    match a {
        Ok(m) => {
            let [stated, red, green, blue] = color_words(m.color);
            let [named, len] = optional_words(m.name);
            [0, stated, red, green, blue, named, len, 0]
        }
        Err(r) => refusal_words(r),
    }
}

// 0, the height, the width, the bytes, and a 0.
pub fn picture_words(a: Result<Picture, Refusal>) -> [usize; PICTURE_WORDS]
    ensures { result ≡ picture_words (answer_by shape_of_picture a) }
{
    match a {
        Ok(p) => [0, p.height, p.width, p.bytes, 0],
        Err(r) => refusal_words(r),
    }
}
