// Voxel sizes: the pixel size, the Z step and its note.
ghost use Rattle.std.specs.Prelude.{◌≡◌, true, false, ◌≤◌, length};
ghost use Rattle.lsm_replay.specs.Told.{letters_told, step_told, calibration_told};

use arrayvec::ArrayVec;
use calibration::{Calibration, ZStep, calibrate, note_figure};
use std::num::f32_to_bits_with_nan;

// A figure's letters as the bytes of one number.
fn letters(figure: ArrayVec<u8, 8>) -> usize
    ensures { result ≡ letters_told figure.items }
{
    let mut bytes = [0; 8];
    bytes[8 - figure.len()..].copy_from_slice(figure.as_slice());
    usize::from_be_bytes(bytes)
}

// Whether the Z step is what is said.
fn step(said: &[usize], z: ZStep) -> bool
    ensures { result ≡ true → said.now ≡ step_told z }
{
    match z {
        ZStep::Used(um) => said == [0, f32_to_bits_with_nan(um) as usize].as_slice(),
        ZStep::Absent => said == [1].as_slice(),
        ZStep::Placeholder(_) => said == [2, note_figure(z).map_or(0, letters)].as_slice(),
        ZStep::TooLarge(_) => said == [3, note_figure(z).map_or(0, letters)].as_slice(),
    }
}

// Whether the calibration is what is said.
pub fn calibrated(said: &[usize], calibration: Option<Calibration>) -> bool
    ensures { result ≡ true → said.now ≡ calibration_told calibration }
{
    match (calibration, said) {
        (None, [0]) => true,
        (Some(c), [1, x, y, z @ ..]) => *x == f32_to_bits_with_nan(c.x) as usize
            && *y == f32_to_bits_with_nan(c.y) as usize
            && step(z, c.z),
        _ => false,
    }
}

// The voxel sizes, and what calibrating by them answers.
pub fn voxels(numbers: &[usize]) -> bool
    ensures { result ≡ true → 3 ≤ length numbers.now }
{
    let [x, y, z, said @ ..] = numbers else {
        return false;
    };
    calibrated(said, calibrate(*x as u64, *y as u64, *z as u64))
}
