// A calibration as five words of a description: written, and read back.
ghost use Rattle.std.specs.Prelude.{◌≡◌, get_or};
ghost use Rattle.lsm_format.specs.Code.{answer_of, answer_by};
ghost use Rattle.calibration.specs.Calibrated.{step_of, calibration_of};
ghost use Rattle.lsm_words.specs.Calibration.{float_word, step_words, size_words};
ghost use Rattle.lsm_words.specs.Calibration.{float_by, step_by, size_by};

use calibration::{Calibration, ZStep};
use lsm_format::error::Refusal;
use std::num::{f32_from_bits_with_nan, f32_to_bits_with_nan};

// The bits of an f32, a NaN's too; none is ever in a description that opening gives.
fn float_word(x: f32) -> usize
    ensures { result ≡ float_word x }
{
    f32_to_bits_with_nan(x) as usize
}

// What became of the Z step, and its bits.
#[tactic(auto, unfolding(crate::specs::Calibration::step_words))]
fn step_words(z: ZStep) -> [usize; 2]
    ensures { result ≡ step_words (step_of z) }
{
    match z {
        ZStep::Used(um) => [0, float_word(um)],
        ZStep::Absent => [1, 0],
        ZStep::Placeholder(um) => [2, float_word(um)],
        ZStep::TooLarge(um) => [3, float_word(um)],
    }
}

#[tactic(auto, unfolding(crate::specs::Calibration::size_words))]
pub(crate) fn size_words(size: Option<Calibration>) -> [usize; 5]
    ensures { result ≡ size_words (calibration_of size) }
{
    match size {
        None => [0; 5],
        Some(s) => {
            let [step, um] = step_words(s.z);
            [1, float_word(s.x), float_word(s.y), step, um]
        }
    }
}

// ---- and back

#[tactic(auto, using(crate::proofs::Calibrations::float_high, crate::proofs::Calibrations::float_nan, crate::proofs::Calibrations::float_is))]
fn float_of(word: usize) -> Result<f32, Refusal>
    ensures { answer_of result ≡ float_by word }
{
    let bits = u32::try_from(word).map_err(|_| Refusal::Decode)?;
    let x = f32_from_bits_with_nan(bits);
    if x.is_nan() {
        return Err(Refusal::Decode);
    }
    Ok(x)
}

// The step of the two words that `step_words` gives.
#[tactic(auto, unfolding(crate::specs::Calibration::step_by, crate::specs::Calibration::chosen, lsm_format::specs::Answer::bind))]
fn step_of(words: [usize; 2]) -> Result<ZStep, Refusal>
    ensures { answer_by step_of result ≡ step_by (get_or words 0 0) (get_or words 1 0) }
{
    match words {
        [0, bits] => Ok(ZStep::Used(float_of(bits)?)),
        [1, _] => Ok(ZStep::Absent),
        [2, bits] => Ok(ZStep::Placeholder(float_of(bits)?)),
        [3, bits] => Ok(ZStep::TooLarge(float_of(bits)?)),
        _ => Err(Refusal::Decode),
    }
}

// The size of the five words that `size_words` gives.
#[tactic(auto, unfolding(crate::specs::Calibration::size_by, crate::specs::Calibration::sized_by, crate::specs::Calibration::chosen, lsm_format::specs::Answer::bind))]
pub(crate) fn size_of(words: [usize; 5]) -> Result<Option<Calibration>, Refusal>
    ensures { answer_by calibration_of result ≡ size_by (get_or words 0 0) (get_or words 1 0) (get_or words 2 0) (get_or words 3 0) (get_or words 4 0) }
{
    match words {
        [0, ..] => Ok(None),
        [1, x, y, choice, bits] => Ok(Some(Calibration {
            x: float_of(x)?,
            y: float_of(y)?,
            z: step_of([choice, bits])?,
        })),
        _ => Err(Refusal::Decode),
    }
}
