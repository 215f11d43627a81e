// Voxel sizes, the Z step and the figure of its note.
#![tactic(auto)]

ghost use Rattle.std.specs.Prelude.{◌≡◌, ◌<◌, IfSome};
ghost use Rattle.arrayvec.specs.ArrayVec.{array_vec_len};
ghost use Rattle.lsm_format.specs.Calibration.{calibration, above_nought, z_step};
ghost use Rattle.narrowing.specs.Code.{float_of};
ghost use Rattle.figure.specs.Code.{letters_of};
ghost use Rattle.calibration.specs.Calibrated.{calibration_of, step_of, note_text};

use arrayvec::ArrayVec;
use figure::short_exponential;
use narrowing::to_micrometres;
use std::num::{f32_to_bits_with_nan, f64_from_bits_with_nan};

// The smallest and the largest Z step, in micrometres, that a microscope could have measured.
const MIN_PLAUSIBLE_Z_STEP_UM: f32 = 1e-6;

const MAX_PLAUSIBLE_Z_STEP_UM: f32 = 1000.0;

// What a file's Z step became, in micrometres: it is used; there is none; there is none, and a note says that the step which the
// file states is a placeholder or too large.
#[derive(Clone, Copy)]
pub enum ZStep {
    Used(f32),
    Absent,
    Placeholder(f32),
    TooLarge(f32),
}

// The pixel size in micrometres.
#[derive(Clone, Copy)]
pub struct Calibration {
    pub x: f32,
    pub y: f32,
    pub z: ZStep,
}

// Whether the f64 with this pattern is above 0.
#[tactic(auto, using(crate::proofs::Steps::above_is))]
fn above_zero(bits: u64) -> bool
    ensures { result ≡ above_nought bits }
{
    0.0 < f64_from_bits_with_nan(bits)
}

// What a step in micrometres becomes; one that is a NaN has no value.
#[tactic(auto, using(crate::proofs::Steps::step_endless, crate::proofs::Steps::step_below, crate::proofs::Steps::step_placeholder, crate::proofs::Steps::step_large, crate::proofs::Steps::step_used, crate::proofs::Steps::step_nan))]
fn resolve_z_step(um: Option<f32>) -> ZStep
    ensures { step_of result ≡ z_step (float_of um) }
{
    let Some(um) = um else {
        return ZStep::Absent;
    };
    if !um.is_finite() || um <= 0.0 {
        ZStep::Absent
    } else if um < MIN_PLAUSIBLE_Z_STEP_UM {
        ZStep::Placeholder(um)
    } else if MAX_PLAUSIBLE_Z_STEP_UM < um {
        ZStep::TooLarge(um)
    } else {
        ZStep::Used(um)
    }
}

// The calibration of three voxel sizes in metres, each by its 64-bit pattern; None where the file states no pixel size.
#[tactic(auto, using(crate::proofs::Steps::no_x, crate::proofs::Steps::no_y, crate::proofs::Steps::nan_x, crate::proofs::Steps::nan_y, crate::proofs::Steps::sized_is))]
pub fn calibrate(vx: u64, vy: u64, vz: u64) -> Option<Calibration>
    ensures { calibration_of result ≡ calibration vx vy vz }
{
    if !above_zero(vx) || !above_zero(vy) {
        return None;
    }
    // what is above 0 is no NaN, so both have a value
    let x = to_micrometres(vx)?;
    let y = to_micrometres(vy)?;
    Some(Calibration {
        x,
        y,
        z: resolve_z_step(to_micrometres(vz)),
    })
}

// The figure of the note on a Z step; None where there is no note, or the step has no figure.
#[tactic(auto, using(crate::proofs::Steps::figure_bits))]
pub fn note_figure(z: ZStep) -> Option<ArrayVec<u8, 8>>
    ensures is { letters_of result ≡ note_text z }
    ensures given { IfSome result (λ figure. 0 < array_vec_len figure) }
{
    match z {
        ZStep::Used(_) | ZStep::Absent => None,
        ZStep::Placeholder(um) | ZStep::TooLarge(um) => short_exponential(f32_to_bits_with_nan(um)),
    }
}
