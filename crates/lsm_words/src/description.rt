// A description as words, which a C caller keeps and hands in again: written, and read back.
ghost use Rattle.std.specs.Prelude.{◌≡◌, get_or};
ghost use Rattle.lsm_format.specs.Code.{order_of, kind_of, answer_of, answer_by};
ghost use Rattle.lsm_description.specs.Code.{description_of};
ghost use Rattle.lsm_words.specs.Answers.{name_words};
ghost use Rattle.lsm_words.specs.Description.{block_words, description_words};
ghost use Rattle.lsm_words.specs.Description.{order_by, kind_by, block_by, interleaved_by, described_by};

use crate::sizes::{size_of, size_words};
use lsm_description::Description;
use lsm_format::error::Refusal;
use lsm_format::types::{DType, Dims5, Endian};
use lsm_positions::LsmLayout;

// How many words a description has. Those that a request adds stand at the end.
pub const DESCRIPTION_WORDS: usize = 19;

// Whether there is a number, and the number: a channel block's place, or a name's length.
#[tactic(auto, unfolding(crate::specs::Description::block_words, crate::specs::Answers::name_words))]
pub(crate) fn optional_words(n: Option<usize>) -> [usize; 2]
    ensures block { result ≡ block_words n }
    ensures name { result ≡ name_words n }
{
    match n {
        None => [0, 0],
        Some(n) => [1, n],
    }
}

// The words of a description.
#[tactic(auto, using(crate::proofs::Descriptions::description_is))]
pub fn description_words(d: Description) -> [usize; DESCRIPTION_WORDS]
    ensures { result ≡ description_words (description_of d) }
{
    let [sized, x, y, step, z] = size_words(d.calibration);
    let [there, place] = optional_words(d.channel_colors_offset);
    [
        d.endian as usize,
        d.dtype as usize,
        d.dims.t,
        d.dims.c,
        d.dims.z,
        d.dims.y,
        d.dims.x,
        d.layout.scenes,
        d.layout.pages_per_time_point,
        d.strips_per_channel,
        sized,
        x,
        y,
        step,
        z,
        there,
        place,
        d.layout.time_points,
        d.interleaved as usize,
    ]
}

// ---- and back

// The byte order that a word is.
#[tactic(auto, unfolding(crate::specs::Description::order_by, crate::specs::Calibration::chosen))]
fn order_of(word: usize) -> Result<Endian, Refusal>
    ensures { answer_by order_of result ≡ order_by word }
{
    match word {
        0 => Ok(Endian::Little),
        1 => Ok(Endian::Big),
        _ => Err(Refusal::Decode),
    }
}

// The kind of sample that a word is.
#[tactic(auto, unfolding(crate::specs::Description::kind_by, crate::specs::Calibration::chosen))]
fn kind_of(word: usize) -> Result<DType, Refusal>
    ensures { answer_by kind_of result ≡ kind_by word }
{
    match word {
        0 => Ok(DType::U8),
        1 => Ok(DType::U16),
        2 => Ok(DType::I16),
        3 => Ok(DType::F32),
        _ => Err(Refusal::Decode),
    }
}

// Whether the channels are interleaved, as a word says it.
#[tactic(auto, unfolding(crate::specs::Description::interleaved_by, crate::specs::Calibration::chosen))]
fn flag_of(word: usize) -> Result<bool, Refusal>
    ensures { answer_of result ≡ interleaved_by word }
{
    match word {
        0 => Ok(false),
        1 => Ok(true),
        _ => Err(Refusal::Decode),
    }
}

// The channel block's place, or none, of the two words that `optional_words` gives.
#[tactic(auto, unfolding(crate::specs::Description::block_by, crate::specs::Calibration::chosen))]
fn block_of(words: [usize; 2]) -> Result<Option<usize>, Refusal>
    ensures { answer_of result ≡ block_by (get_or words 0 0) (get_or words 1 0) }
{
    match words {
        [0, _] => Ok(None),
        [1, place] => Ok(Some(place)),
        _ => Err(Refusal::Decode),
    }
}

// The description that words are. Words that are none are refused; words of what is absent are not looked at.
#[tactic(auto, unfolding(crate::specs::Description::described_by, lsm_format::specs::Answer::bind))]
pub fn read_description(words: &[usize; DESCRIPTION_WORDS]) -> Result<Description, Refusal>
    ensures { answer_by description_of result ≡ described_by words.now }
{
    let [
        order,
        kind,
        t,
        c,
        z,
        y,
        x,
        scenes,
        pages_per_time_point,
        strips_per_channel,
        sized,
        x_bits,
        y_bits,
        step,
        step_bits,
        there,
        place,
        time_points,
        interleaved,
    ] = *words;
    Ok(Description {
        endian: order_of(order)?,
        dtype: kind_of(kind)?,
        dims: Dims5 { t, c, z, y, x },
        layout: LsmLayout {
            scenes,
            time_points,
            pages_per_time_point,
        },
        strips_per_channel,
        calibration: size_of([sized, x_bits, y_bits, step, step_bits])?,
        channel_colors_offset: block_of([there, place])?,
        interleaved: flag_of(interleaved)?,
    })
}
