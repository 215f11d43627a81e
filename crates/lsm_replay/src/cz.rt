// The CZ-LSM-Info block.
ghost use Rattle.std.specs.Prelude.{◌≡◌, true, ◌≤◌, length};
ghost use Rattle.lsm_replay.specs.Told.{info_told};

use crate::answer::refused;
use crate::ground::{bits_of, order};
use crate::voxels::calibrated;
use lsm_cz_info::{CzInfo, parse};
use lsm_format::types::CzTag;

// What a line says where a block leads to no channel block: the recorder wrote a number past every i32.
const NO_PLACE: usize = 0x1_0000_0000;

// Whether the block's contents are what is said: 0, the dimensions, positions and tiles, the channel block's place, and the calibration.
fn info(said: &[usize], i: CzInfo) -> bool
    ensures { result ≡ true → said.now ≡ info_told i }
{
    let numbers = [
        0,
        i.dim_x as usize,
        i.dim_y as usize,
        i.dim_z as usize,
        i.dim_channels as usize,
        i.dim_time as usize,
        bits_of(i.dim_p),
        bits_of(i.dim_m),
        i.channel_colors_offset.unwrap_or(NO_PLACE),
    ];
    said.strip_prefix(numbers.as_slice())
        .is_some_and(|size| calibrated(size, i.calibration))
}

// The order, the block's place and its declared bytes, and what reading it in a file answers.
pub fn block(numbers: &[usize], file: &[u8]) -> bool
    ensures { result ≡ true → 3 ≤ length numbers.now }
{
    let [e, offset, declared_bytes, said @ ..] = numbers else {
        return false;
    };
    let tag = CzTag {
        offset: *offset,
        declared_bytes: *declared_bytes,
    };
    match parse(file, tag, order(*e)) {
        Ok(i) => info(said, i),
        Err(r) => refused(said, r),
    }
}
