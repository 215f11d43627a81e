// What is asked of a channel's strips. Of each there is where it starts, and its bytes.
ghost use Rattle.std.specs.Prelude.{◌≡◌, ◌<◌};
ghost use Rattle.lsm_format.specs.Code.{answer_of};
ghost use Rattle.lsm_strips.specs.Strips.{all_lie, turn_in, whole_in};

use lsm_format::error::Refusal;
use lsm_format::types::within_size;

// Whether each of the strips lies in a file of `len` bytes.
pub(crate) fn strips_inside(strips: &[[usize; 2]], len: usize) -> bool
    ensures { result ≡ all_lie len strips.now }
{
    strips
        .iter()
        .all(|&[offset, count]| within_size(offset, count, len))
}

// The strips in turn: each lies in the file, and has no more bytes than are still to come; together they have the picture's bytes. What is
// still to come is counted down, since the strips' sum can overflow.
#[tactic(auto, using(crate::proofs::Turning::turn_end, crate::proofs::Turning::turn_outside, crate::proofs::Turning::turn_over, crate::proofs::Turning::turn_next))]
pub(crate) fn strips_in_turn(strips: &[[usize; 2]], len: usize, size: usize) -> Result<(), Refusal>
    ensures { answer_of result ≡ turn_in len strips.now size }
{
    let mut left = size;
    for &[offset, count] in strips {
        if !within_size(offset, count, len) {
            return Err(Refusal::Decode); // outside the file
        }
        left = left.checked_sub(count).ok_or(Refusal::Decode)?; // too many bytes
    }
    if 0 < left {
        return Err(Refusal::Decode); // too few
    }
    Ok(())
}

// Whether each of the strips holds whole rows, and all of them together the picture's. The rows still to come are counted down.
#[tactic(auto, using(crate::proofs::Turning::rows_end, crate::proofs::Turning::rows_odd, crate::proofs::Turning::rows_over, crate::proofs::Turning::rows_next))]
pub(crate) fn strips_of_rows(strips: &[[usize; 2]], row: usize, height: usize) -> bool
    requires { 0 < row }
    ensures { result ≡ whole_in row strips.now height }
{
    let mut left = height;
    for &[_, count] in strips {
        if count % row != 0 || left < count / row {
            return false;
        }
        left -= count / row;
    }
    left == 0
}
