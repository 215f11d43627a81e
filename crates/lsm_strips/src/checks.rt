// The checks of plane and region after the coordinate's and the rectangle's, in their order.
ghost use Rattle.std.specs.Prelude.{◌≡◌, true, false};
ghost use Rattle.lsm_format.specs.Code.{answer_of, answer_by, rect_of, coordinate_of};
ghost use Rattle.lsm_format.specs.Picture.{scene_there, coordinate_there, joined_size, plane_strips, window_strips, region_strips, whole_rows};
ghost use Rattle.lsm_description.specs.Code.{description_of};
ghost use Rattle.lsm_strips.specs.Parts.{strips_of, Lying};

use crate::strips::{strips_in_turn, strips_inside};
use crate::walk::Cursor;
use crate::{Asked, StripRun};
use lsm_description::Description;
use lsm_format::checked::checked_mul;
use lsm_format::error::Refusal;
use lsm_format::guard::MAX_DECODED_PLANE_BYTES;
use lsm_format::types::{Coordinate, Dims5, PixelRect, checked_coordinates};

// Whether the file has the scene.
#[tactic(auto, unfolding(lsm_format::specs::Picture::scene_there))]
pub(crate) fn checked_scene(d: Description, scene: usize) -> Result<(), Refusal>
    ensures { answer_of result ≡ scene_there (description_of d) scene }
{
    if d.layout.scenes <= scene {
        return Err(Refusal::SceneOutOfRange {
            scene,
            count: d.layout.scenes,
        });
    }
    Ok(())
}

// The scene, then t, c and z.
#[tactic(auto, unfolding(lsm_format::specs::Picture::coordinate_there, lsm_format::specs::Answer::bind))]
pub(crate) fn checked_place(d: Description, co: Coordinate) -> Result<(), Refusal>
    ensures { answer_of result ≡ coordinate_there (description_of d) (coordinate_of co) }
{
    checked_scene(d, co.scene)?;
    checked_coordinates(d.dims, co)
}

impl Asked<'_> {
    // The bytes that the strips of a picture of `size` bytes must have: those of all channels that share them.
    #[tactic(auto, using(lsm_format::proofs::Told::ok_or_given), unfolding(lsm_format::specs::Picture::joined_size))]
    fn joined_size(self, size: usize) -> Result<usize, Refusal>
        ensures { answer_of result ≡ joined_size (description_of self.entry.d) size }
    {
        let all = checked_mul(self.d.pixel_samples(), size);
        all.ok_or(Refusal::OversizedAllocation {
            requested: usize::MAX,
            cap: MAX_DECODED_PLANE_BYTES,
        })
    }

    // Plane's checks after the coordinate: size, page, strips.
    #[tactic(auto, unfolding(lsm_format::specs::Picture::plane_strips, lsm_format::specs::Answer::bind), using(lsm_format::proofs::Picture::channel_room, crate::proofs::Pairs::turn_at))]
    pub(crate) fn plane_strips(self) -> Result<StripRun, Refusal>
        ensures { answer_by strips_of result ≡ plane_strips (description_of self.entry.d) self.entry.table.now self.entry.len (coordinate_of self.entry.co) }
    {
        let size = self.d.dims.checked_plane_bytes(self.d.dtype)?;
        let all = self.joined_size(size)?;
        let run = self.channel_strips()?;
        strips_in_turn(run.of(self.table).unwrap(), self.len, all)?;
        Ok(run)
    }

    // The strips of a rectangle where all pages' strips hold whole rows: the rectangle's own size fits, they lie in the file, and the
    // rectangle's last byte in them. A page past those of the whole-row test can be asked for, and may lack it; what the joined strips hold
    // need not fit 64 bits.
    #[tactic(auto, unfolding(lsm_format::specs::Picture::window_strips, lsm_format::specs::Picture::row_strips, lsm_format::specs::Answer::bind), using(lsm_format::proofs::Picture::channel_room, crate::proofs::Pairs::inside_at, crate::proofs::Pairs::total_at, crate::proofs::Judging::planar_end))]
    fn window_strips(self, rect: PixelRect) -> Result<StripRun, Refusal>
        requires lying { Lying (description_of self.d) (rect_of rect) }
        requires planar { self.d.interleaved ≡ false }
        requires whole { whole_rows (description_of self.d) self.table.now ≡ true }
        ensures { answer_by strips_of result ≡ window_strips (description_of self.entry.d) self.entry.table.now self.entry.len (coordinate_of self.entry.co) (rect_of rect) }
    {
        let part = Dims5 {
            t: 1,
            c: 1,
            z: 1,
            y: rect.h,
            x: rect.w,
        };
        part.checked_plane_bytes(self.d.dtype)?;
        let run = self.channel_strips()?;
        let strips = run.of(self.table).unwrap();
        let size = self.d.dtype.size_bytes();
        let top = Cursor {
            strips,
            into: (rect.x + rect.w) * size - 1,
        };
        let row = self.d.dims.x * size;
        // A strip outside the file ends the call before the walk to the last row.
        if strips_inside(strips, self.len) && top.seek(rect.y + rect.h - 1, row).is_some() {
            Ok(run)
        } else {
            Err(Refusal::Decode)
        }
    }

    // Region's checks after the rectangle. Plane's checks decide for an interleaved picture, and for one that isn't oversized, whatever the
    // strips of other pages hold, unless its page is past those of the whole-row test; so the test over all pages is made only for an oversized
    // picture or such a page.
    #[tactic(auto, using(crate::proofs::Judging::region_whole, crate::proofs::Judging::region_interleaved))]
    pub(crate) fn region_strips(self, rect: PixelRect) -> Result<StripRun, Refusal>
        requires { Lying (description_of self.d) (rect_of rect) }
        ensures { answer_by strips_of result ≡ region_strips (description_of self.entry.d) self.entry.table.now self.entry.len (coordinate_of self.entry.co) (rect_of rect) }
    {
        if self.d.interleaved {
            return self.plane_strips();
        }
        let small = self.d.dims.checked_plane_bytes(self.d.dtype).is_ok();
        if small && !self.past_test() || !self.whole_rows() {
            return self.plane_strips();
        }
        self.window_strips(rect)
    }
}
