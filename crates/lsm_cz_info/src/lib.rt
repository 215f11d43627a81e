// The CZ-LSM-Info block: dimensions, voxel sizes, the channel block's place, positions and tiles.
#![tactic(auto)]

mod block;

ghost use Rattle.std.specs.Prelude.{◌≡◌, leb, pos, None};
ghost use Rattle.lsm_format.specs.Calibration.{uncalibrated};
ghost use Rattle.lsm_format.specs.Code.{order_of, answer_of, answer_by};
ghost use Rattle.lsm_format.specs.CzInfo.{extents, stated, voxels, channel_block, shots, from, cz_info};
ghost use Rattle.calibration.specs.Calibrated.{calibration_of};
ghost use Rattle.lsm_cz_info.specs.Code.{stated_of, shots_of, info_of};

use crate::block::Block;
use calibration::{Calibration, calibrate};
use lsm_bytes::positive;
use lsm_format::error::Refusal;
use lsm_format::types::{CzTag, Endian};

// The dimensions: five i32s.
const DIM_X_AT: usize = 8;

const DIM_Y_AT: usize = 12;

const DIM_Z_AT: usize = 16;

const DIM_CHANNELS_AT: usize = 20;

const DIM_TIME_AT: usize = 24;

// The three voxel sizes, f64 in metres.
const VOXEL_X_AT: usize = 40;

const VOXEL_Y_AT: usize = 48;

const VOXEL_Z_AT: usize = 56;

const VOXEL_END: usize = 64;

// Where the channel block stands in the file.
const CHANNEL_COLORS_AT: usize = 108;

const CHANNEL_COLORS_END: usize = 112;

// The stage positions and the tiles.
const DIM_P_AT: usize = 264;

const DIM_M_AT: usize = 268;

const COUNTS_END: usize = 272;

// What the block states.
#[derive(Clone, Copy)]
pub struct CzInfo {
    pub dim_x: u32,
    pub dim_y: u32,
    pub dim_z: u32,
    pub dim_channels: u32,
    pub dim_time: u32,
    // Stage positions and tiles, as the block states them: they may be negative.
    pub dim_p: i32,
    pub dim_m: i32,
    pub channel_colors_offset: Option<usize>,
    pub calibration: Option<Calibration>,
}

// The dimensions as the block states them: any of them may be negative.
#[derive(Clone, Copy)]
struct Extents {
    x: i32,
    y: i32,
    z: i32,
    channels: i32,
    time: i32,
}

impl Extents {
    // Whether they are those of a picture. A depth or a time of 0 is left for the checks of the whole file.
    fn is_stated(self) -> bool
        ensures { result ≡ stated (stated_of self) }
    {
        0 < self.x && 0 < self.y && 0 <= self.z && 0 < self.channels && 0 <= self.time
    }
}

// Stage positions and tiles.
#[derive(Clone, Copy)]
struct Shots {
    p: i32,
    m: i32,
}

// The dimensions.
#[tactic(auto, unfolding(lsm_format::specs::CzInfo::extents, lsm_format::specs::Answer::bind))]
fn read_extents(block: &Block<'_>) -> Result<Extents, Refusal>
    ensures { answer_by stated_of result ≡ extents (order_of block.now.endian) block.now.buf.now block.now.start }
{
    Ok(Extents {
        x: block.number(DIM_X_AT)?,
        y: block.number(DIM_Y_AT)?,
        z: block.number(DIM_Z_AT)?,
        channels: block.number(DIM_CHANNELS_AT)?,
        time: block.number(DIM_TIME_AT)?,
    })
}

// The parts below are read where the block is long enough to hold them: past its end stand other data. Each keeps its own test of the
// length: a function that took the read as a closure would be no shorter than the test.

#[tactic(auto, unfolding(lsm_format::specs::CzInfo::voxels, lsm_format::specs::Answer::bind))]
fn read_voxels(block: &Block<'_>) -> Result<Option<Calibration>, Refusal>
    ensures { answer_by calibration_of result ≡ from (leb 64 block.now.bytes) (voxels (order_of block.now.endian) block.now.buf.now block.now.start) uncalibrated }
{
    if block.bytes < VOXEL_END {
        return Ok(None);
    }
    let x = block.float_bits(VOXEL_X_AT)?;
    let y = block.float_bits(VOXEL_Y_AT)?;
    let z = block.float_bits(VOXEL_Z_AT)?;
    Ok(calibrate(x, y, z))
}

#[tactic(auto, unfolding(lsm_format::specs::CzInfo::channel_block, lsm_format::specs::Answer::bind))]
fn read_channel_block(block: &Block<'_>) -> Result<Option<usize>, Refusal>
    ensures { answer_of result ≡ from (leb 112 block.now.bytes) (channel_block (order_of block.now.endian) block.now.buf.now block.now.start) None }
{
    if block.bytes < CHANNEL_COLORS_END {
        return Ok(None);
    }
    let n = block.number(CHANNEL_COLORS_AT)?;
    Ok(positive(n))
}

#[tactic(auto, unfolding(lsm_format::specs::CzInfo::shots, lsm_format::specs::Answer::bind))]
fn read_shots(block: &Block<'_>) -> Result<Shots, Refusal>
    ensures { answer_by shots_of result ≡ from (leb 272 block.now.bytes) (shots (order_of block.now.endian) block.now.buf.now block.now.start) (pos 1, pos 1) }
{
    if block.bytes < COUNTS_END {
        return Ok(Shots { p: 1, m: 1 });
    }
    Ok(Shots {
        p: block.number(DIM_P_AT)?,
        m: block.number(DIM_M_AT)?,
    })
}

// What the block states that the entry announces. The first part that refuses decides.
#[tactic(auto, unfolding(lsm_format::specs::CzInfo::cz_info, lsm_format::specs::Answer::bind), using(lsm_format::proofs::CzInfo::positive_size, lsm_format::proofs::CzInfo::natural_size, lsm_format::proofs::Told::back))]
pub fn parse(buf: &[u8], tag: CzTag, e: Endian) -> Result<CzInfo, Refusal>
    ensures { answer_by info_of result ≡ cz_info (order_of e) buf.now tag.offset tag.declared_bytes }
{
    let block = Block::open(buf, tag, e)?;
    let d = read_extents(&block)?;
    if !d.is_stated() {
        return Err(Refusal::Unsupported);
    }
    let calibration = read_voxels(&block)?;
    let channel_colors_offset = read_channel_block(&block)?;
    let shots = read_shots(&block)?;
    // none of the dimensions is below 0
    Ok(CzInfo {
        dim_x: d.x.unsigned_abs(),
        dim_y: d.y.unsigned_abs(),
        dim_z: d.z.unsigned_abs(),
        dim_channels: d.channels.unsigned_abs(),
        dim_time: d.time.unsigned_abs(),
        dim_p: shots.p,
        dim_m: shots.m,
        channel_colors_offset,
        calibration,
    })
}
