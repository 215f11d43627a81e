// The description of a file: what its first full page and its CZ block make, and what is asked of it.
#![tactic(auto)]

ghost use Rattle.std.specs.Prelude.{◌≡◌, not, ◌||◌, List, ℕ, ◌<◌, max, leb};
ghost use Rattle.lsm_format.specs.Code.{order_of, kind_of, answer_of, answer_by};
ghost use Rattle.lsm_format.specs.Numbers.{Order};
ghost use Rattle.lsm_format.specs.Open.{sample_kind, component_planes, agreement, layout_for};
ghost use Rattle.lsm_format.specs.Open as Open;
ghost use Rattle.lsm_positions.specs.Code.{layout_of};
ghost use Rattle.lsm_cz_info.specs.Code.{info_of};
ghost use Rattle.lsm_channel_colors.specs.Code.{meta_of, Looked};
ghost use Rattle.lsm_directory.specs.Code.{directory_of};
ghost use Rattle.lsm_format.specs.Picture.{pixel_samples};
ghost use Rattle.lsm_description.specs.Code.{description_of};

use calibration::Calibration;
use lsm_channel_colors::{ChannelMeta, read_channel};
use lsm_cz_info::CzInfo;
use lsm_directory::Directory;
use lsm_format::error::Refusal;
use lsm_format::types::{DType, Dims5, Endian};
use lsm_positions::LsmLayout;

// What a file says of its pictures, by value: it can be kept, and handed in again with any file.
#[derive(Clone, Copy)]
pub struct Description {
    pub endian: Endian,
    pub dtype: DType,
    // Every scene has these dimensions.
    pub dims: Dims5,
    pub layout: LsmLayout,
    // Whether all channels of a page share its strips, which then hold them sample by sample.
    pub interleaved: bool,
    // The strips of a component plane: a channel's, or, interleaved, the page's.
    pub strips_per_channel: usize,
    pub calibration: Option<Calibration>,
    pub channel_colors_offset: Option<usize>,
}

impl Description {
    // The component planes that share out a page's strips.
    pub fn component_planes(self) -> usize
        ensures { result ≡ component_planes self.interleaved self.dims.c }
    {
        component_planes(self.interleaved, self.dims.c)
    }

    // The samples that a pixel has in a component plane.
    pub fn pixel_samples(self) -> usize
        ensures { result ≡ pixel_samples (description_of self) }
    {
        if self.interleaved { self.dims.c } else { 1 }
    }
}

// The colour and name of a channel. The name's text is written to `name`; where it has no room there, nothing is.
pub fn channel(
    buf: &[u8],
    d: Description,
    channel: usize,
    name: &mut [u8],
) -> Result<ChannelMeta, Refusal>
    ensures { Looked (description_of d).order buf.now (description_of d).channel_block (description_of d).dims.c channel name.old name.new (answer_by meta_of result) }
{
    read_channel(
        buf,
        d.channel_colors_offset,
        d.endian,
        d.dims.c,
        channel,
        name,
    )
}

// The kind of sample that a format and its bits make.
pub fn map_dtype(sample_format: u32, bits: u32) -> Result<DType, Refusal>
    ensures { answer_by kind_of result ≡ sample_kind sample_format bits }
{
    match (sample_format, bits) {
        (1, 8) => Ok(DType::U8),
        (1, 16) => Ok(DType::U16),
        (2, 16) => Ok(DType::I16),
        (3, 32) => Ok(DType::F32),
        _ => Err(Refusal::Unsupported),
    }
}

// A count of which 0 stands for 1.
fn at_least_one(n: u32) -> usize
    ensures { (result ≡ max 1 n) × (0 < result) }
{
    n.max(1) as usize
}

// Whether the channels of a page share one component plane. One channel has a plane of its own, whatever the file says of it.
fn is_interleaved(channels: usize, planar: bool) -> bool
    ensures { result ≡ not (leb channels 1 || planar) }
{
    1 < channels && !planar
}

// The component planes that so many channels make.
fn component_planes(interleaved: bool, channels: usize) -> usize
    ensures { result ≡ component_planes interleaved channels }
{
    if interleaved { 1 } else { channels }
}

// Whether the first full page agrees with the CZ block.
#[tactic(auto, using(lsm_directory::proofs::Laws::lengths), unfolding(lsm_format::specs::Open::agreement, lsm_format::specs::Answer::bind))]
fn check_agreement(page: Directory, info: CzInfo) -> Result<(), Refusal>
    ensures { (o : Order) (f : List ℕ) → answer_of result ≡ agreement (directory_of o f page) (info_of info) }
{
    let channels = page.channels();
    let strips = page.offsets.count;
    if info.dim_x != page.width || info.dim_y != page.height {
        return Err(Refusal::Decode);
    }
    if info.dim_channels as usize != channels {
        return Err(Refusal::Decode);
    }
    let interleaved = is_interleaved(channels, page.is_planar());
    if strips == 0 || strips % component_planes(interleaved, channels) != 0 {
        return Err(Refusal::Decode);
    }
    Ok(())
}

// The scenes of the file and their time points, where it has as many pages as they ask for.
#[tactic(auto, unfolding(lsm_format::specs::Open::layout_for, lsm_format::specs::Answer::bind))]
fn layout_for(info: CzInfo, pages: usize) -> Result<LsmLayout, Refusal>
    ensures { answer_by layout_of result ≡ layout_for (info_of info) pages }
{
    let times = at_least_one(info.dim_time);
    let planes = at_least_one(info.dim_z);
    let layout = LsmLayout::new(info.dim_p, info.dim_m, times, planes)?;
    if pages != layout.expected_pages()? {
        return Err(Refusal::Decode);
    }
    Ok(layout)
}

// The description that the first full page and the CZ block make.
#[tactic(auto, using(lsm_values::proofs::Laws::values_length), unfolding(lsm_format::specs::Open::describe, lsm_format::specs::Answer::bind))]
pub fn describe(
    e: Endian,
    dtype: DType,
    page: Directory,
    pages: usize,
    info: CzInfo,
) -> Result<Description, Refusal>
    ensures { (o : Order) (f : List ℕ) → answer_by description_of result ≡ Open.describe (order_of e) (kind_of dtype) (directory_of o f page) pages (info_of info) }
{
    check_agreement(page, info)?;
    let layout = layout_for(info, pages)?;
    let channels = page.channels();
    let interleaved = is_interleaved(channels, page.is_planar());
    Ok(Description {
        endian: e,
        dtype,
        dims: Dims5 {
            t: at_least_one(info.dim_time),
            c: channels,
            z: at_least_one(info.dim_z),
            y: page.height as usize,
            x: page.width as usize,
        },
        layout,
        interleaved,
        strips_per_channel: page.offsets.count / component_planes(interleaved, channels),
        calibration: info.calibration,
        channel_colors_offset: info.channel_colors_offset,
    })
}
