// The strips that plane and region read: all their checks but the last, in order, and which strips the picture has.
#![tactic(auto)]

mod checks;
mod pages;
mod strips;
pub mod walk;

ghost use Rattle.std.specs.Prelude.{◌≡◌, ◌+◌, ◌*◌, ◌<◌, ◌≤◌, length, MatchOption};
ghost use Rattle.lsm_format.specs.Code.{answer_by, rect_of, coordinate_of};
ghost use Rattle.lsm_format.specs.Picture.{plane_from, region_from};
ghost use Rattle.lsm_description.specs.Code.{description_of};
ghost use Rattle.lsm_strips.specs.Parts.{strips_of};
ghost use Rattle.lsm_strips.specs.Strips.{strips_at};

use crate::checks::{checked_place, checked_scene};
use lsm_description::Description;
use lsm_format::error::Refusal;
use lsm_format::types::{Coordinate, PixelRect, checked_region};

// The strips that a channel is read from, which follow one another in the table: the first, and how many they are; and which sample of a pixel
// there is the channel's own.
#[derive(Clone, Copy)]
pub struct StripRun {
    pub first: usize,
    pub count: usize,
    pub sample: usize,
}

// Strips that follow one another: where each starts, and its bytes. None where the table doesn't have all of them.
#[tactic(auto, using(crate::proofs::Pairs::run_at))]
fn strips_at(table: &[usize], first: usize, count: usize) -> Option<&[[usize; 2]]>
    ensures { MatchOption result (length table.now < 2 * (first + count)) (λ strips. (2 * (first + count) ≤ length table.now) × (strips.now ≡ strips_at table.now first count)) }
{
    let (strips, _) = table.as_chunks();
    let end = first.checked_add(count)?;
    strips.get(first..end)
}

impl StripRun {
    // The strips themselves.
    pub fn of(self, table: &[usize]) -> Option<&[[usize; 2]]>
        ensures { MatchOption result (length table.now < 2 * (self.first + self.count)) (λ strips. (2 * (self.first + self.count) ≤ length table.now) × (strips.now ≡ strips_at table.now self.first self.count)) }
    {
        strips_at(table, self.first, self.count)
    }
}

// A picture that is asked for: a description, its strip table, the bytes of a file, and which picture. The description has its channel.
#[derive(Clone, Copy)]
struct Asked<'a> {
    d: Description,
    table: &'a [usize],
    len: usize,
    co: Coordinate,
    ghost channel: { co.c < d.dims.c },
}

// Plane's: the coordinate, then size, page, strips.
#[tactic(auto, unfolding(lsm_format::specs::Picture::plane_from, lsm_format::specs::Answer::bind), using(lsm_format::proofs::Picture::coordinate_channel))]
pub fn plane_from(
    d: Description,
    table: &[usize],
    len: usize,
    co: Coordinate,
) -> Result<StripRun, Refusal>
    ensures { answer_by strips_of result ≡ plane_from (description_of d) table.now len (coordinate_of co) }
{
    checked_place(d, co)?;
    let asked = Asked { d, table, len, co };
    asked.plane_strips()
}

// Region's: the scene, the coordinate and the rectangle, whether it is empty, then the strips. An empty rectangle is read from none, and
// asks nothing of them.
#[tactic(auto, unfolding(lsm_format::specs::Picture::region_from, lsm_format::specs::Picture::coordinate_there, lsm_format::specs::Answer::bind), using(crate::proofs::Asking::region_off, crate::proofs::Asking::region_empty, crate::proofs::Asking::region_filled))]
pub fn region_from(
    d: Description,
    table: &[usize],
    len: usize,
    co: Coordinate,
    rect: PixelRect,
) -> Result<StripRun, Refusal>
    ensures { answer_by strips_of result ≡ region_from (description_of d) table.now len (coordinate_of co) (rect_of rect) }
{
    checked_scene(d, co.scene)?;
    checked_region(d.dims, co, rect)?;
    if rect.is_empty() {
        return Ok(StripRun {
            first: 0,
            count: 0,
            sample: 0,
        });
    }
    let asked = Asked { d, table, len, co };
    asked.region_strips(rect)
}
