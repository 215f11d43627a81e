// Pictures and rectangles of them, read from the strips of a file.
#![tactic(auto)]

mod copier;

ghost use Rattle.std.specs.Prelude.{length};
ghost use Rattle.lsm_format.specs.Answer.{accepted};
ghost use Rattle.lsm_format.specs.Code.{answer_by, rect_of, coordinate_of};
ghost use Rattle.lsm_format.specs.Picture as Rule;
ghost use Rattle.lsm_description.specs.Code.{description_of};
ghost use Rattle.lsm_strips.specs.Parts.{strips_of};
ghost use Rattle.lsm_region.specs.Code.{shape_of_picture, Pictured};
ghost use Rattle.lsm_region.specs.Ready.{Ready};

use crate::copier::fill;
use lsm_description::Description;
use lsm_format::error::Refusal;
use lsm_format::types::{Coordinate, PixelRect};
use lsm_strips::{StripRun, plane_from, region_from};

// The rows and columns of what was read, and how many bytes were written.
#[derive(Clone, Copy)]
pub struct Picture {
    pub height: usize,
    pub width: usize,
    pub bytes: usize,
}

// The last check, and the samples. Nothing is written before it.
fn deliver(
    buf: &[u8],
    d: Description,
    table: &[usize],
    run: StripRun,
    rect: PixelRect,
    out: &mut [u8],
) -> Result<Picture, Refusal>
    requires { Ready (description_of d) table.now (length buf.now) (strips_of run) (rect_of rect) }
    ensures { Pictured (accepted (Rule.samples_in (description_of d) table.now buf.now (rect_of rect) (strips_of run))) out.old out.new (answer_by shape_of_picture result) }
{
    let size = rect.w * rect.h * d.dtype.size_bytes();
    let picture = Picture {
        height: rect.h,
        width: rect.w,
        bytes: size,
    };
    if out.len() < size {
        return Err(Refusal::TooShort { needed: size });
    }
    if size == 0 {
        return Ok(picture);
    }
    fill(buf, d, table, run, rect, &mut out[..size]);
    Ok(picture)
}

// A whole picture. Its samples are written to `out`, little-endian, row by row. File, description and table may come from different places, so
// each is an argument of its own.
#[tactic(auto, unfolding(lsm_format::specs::Picture::plane, lsm_format::specs::Picture::into, lsm_format::specs::Answer::bind))]
pub fn plane(
    buf: &[u8],
    d: Description,
    table: &[usize],
    co: Coordinate,
    out: &mut [u8],
) -> Result<Picture, Refusal>
    ensures { Pictured (Rule.plane (description_of d) table.now buf.now (coordinate_of co)) out.old out.new (answer_by shape_of_picture result) }
{
    let run = plane_from(d, table, buf.len(), co)?;
    let whole = PixelRect {
        x: 0,
        y: 0,
        w: d.dims.x,
        h: d.dims.y,
    };
    deliver(buf, d, table, run, whole, out)
}

// A rectangle of a picture, which may be one that is too large to be read whole. Its samples are written to `out`, little-endian, row
// by row.
#[tactic(auto, unfolding(lsm_format::specs::Picture::region, lsm_format::specs::Picture::into, lsm_format::specs::Answer::bind))]
pub fn region(
    buf: &[u8],
    d: Description,
    table: &[usize],
    co: Coordinate,
    rect: PixelRect,
    out: &mut [u8],
) -> Result<Picture, Refusal>
    ensures { Pictured (Rule.region (description_of d) table.now buf.now (coordinate_of co) (rect_of rect)) out.old out.new (answer_by shape_of_picture result) }
{
    let run = region_from(d, table, buf.len(), co, rect)?;
    deliver(buf, d, table, run, rect, out)
}
