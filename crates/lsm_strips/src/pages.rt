// Where a picture's strips stand in the table, and whether all pages' strips hold whole rows. A handed-in description can name any
// page, so every product is tested before it is used.
ghost use Rattle.std.specs.Prelude.{◌≡◌, true, false, ◌*◌, ◌<◌, length};
ghost use Rattle.lsm_format.specs.Code.{answer_by, coordinate_of};
ghost use Rattle.lsm_format.specs.Picture.{plane_of, own_sample, channel_strips, row_bytes, whole_page, whole_rows};
ghost use Rattle.lsm_format.specs.Words.{word};
ghost use Rattle.lsm_description.specs.Code.{description_of};
ghost use Rattle.lsm_strips.specs.Parts.{strips_of, past_test, start_of};

use crate::strips::strips_of_rows;
use crate::{Asked, StripRun, strips_at};
use lsm_description::Description;
use lsm_format::checked::checked_mul;
use lsm_format::error::Refusal;
use lsm_format::types::Coordinate;

// The first strip of a page that a table of `words` words has whole.
#[tactic(auto, using(crate::proofs::Judging::start_lost, crate::proofs::Judging::start_empty, crate::proofs::Judging::start_past, crate::proofs::Judging::start_there))]
fn page_start(d: Description, words: usize, page: usize) -> Option<usize>
    ensures { result ≡ start_of (description_of d) words page }
{
    let strips = checked_mul(d.component_planes(), d.strips_per_channel)?;
    if strips == 0 || words / 2 / strips <= page {
        return None;
    }
    Some(page * strips)
}

// The component plane that has a channel: its own, or the one that has all.
fn plane_of(interleaved: bool, c: usize) -> usize
    ensures { result ≡ plane_of interleaved c }
{
    if interleaved { 0 } else { c }
}

// Which sample of a pixel there is the channel's own.
fn own_sample(interleaved: bool, c: usize) -> usize
    ensures { result ≡ own_sample interleaved c }
{
    if interleaved { c } else { 0 }
}

impl Asked<'_> {
    // The bytes of a row, if they fit.
    #[tactic(auto, unfolding(lsm_format::specs::Words::word))]
    fn row_bytes(self) -> Option<usize>
        ensures { result ≡ word (row_bytes (description_of self.entry.d)) }
    {
        checked_mul(self.d.dims.x, self.d.dtype.size_bytes())
    }

    // The strips of the channel on the page that the focal plane has.
    #[tactic(auto, using(crate::proofs::Judging::channel_none, crate::proofs::Judging::channel_gone, crate::proofs::Judging::channel_found, crate::proofs::Judging::start_tells, crate::proofs::Judging::channel_fits))]
    pub(crate) fn channel_strips(self) -> Result<StripRun, Refusal>
        ensures { answer_by strips_of result ≡ channel_strips (description_of self.entry.d) (length self.entry.table.now) (coordinate_of self.entry.co) }
    {
        let Coordinate { scene, t, c, z } = self.co;
        let outside = Refusal::OutOfRange { scene, t, c, z };
        let page = self.d.layout.page_index(self.co).ok_or(outside)?;
        let start = page_start(self.d, self.table.len(), page).ok_or(outside)?;
        let count = self.d.strips_per_channel;
        Ok(StripRun {
            first: start + plane_of(self.d.interleaved, c) * count,
            count,
            sample: own_sample(self.d.interleaved, c),
        })
    }

    // Whether the page that the focal plane has is past those of the whole-row test. No page of an opened file is.
    #[tactic(auto, using(crate::proofs::Judging::past_nowhere, crate::proofs::Judging::past_there))]
    pub(crate) fn past_test(self) -> bool
        ensures { result ≡ past_test (description_of self.entry.d) (coordinate_of self.entry.co) }
    {
        let layout = self.d.layout;
        let Some(page) = layout.page_index(self.co) else {
            return false;
        };
        let Ok(pages) = layout.expected_pages() else {
            return false;
        };
        pages <= page
    }

    // Whether the table has a page, and each of its channels, which have strips of their own, holds whole rows.
    #[tactic(auto, using(crate::proofs::Judging::start_tells, crate::proofs::Judging::whole_lost))]
    fn whole_page(self, page: usize, row: usize) -> bool
        requires planar { self.d.interleaved ≡ false }
        requires row { (row ≡ row_bytes (description_of self.d)) × (0 < row) }
        ensures { result ≡ whole_page (description_of self.entry.d) self.entry.table.now page }
    {
        let Some(first) = page_start(self.d, self.table.len(), page) else {
            return false;
        };
        let count = self.d.dims.c * self.d.strips_per_channel;
        let strips = strips_at(self.table, first, count).unwrap();
        strips
            .chunks_exact(self.d.strips_per_channel)
            .all(|channel| strips_of_rows(channel, row, self.d.dims.y))
    }

    // Whether every page's strips hold whole rows. The first that doesn't ends the search. That a row has a byte is looked at here, and asked for
    // above: a `NonZeroUsize` would be taken apart at each use, and what it is a product of would stand beside it all the same.
    #[tactic(auto, using(crate::proofs::Judging::whole_wide, crate::proofs::Judging::whole_empty))]
    pub(crate) fn whole_rows(self) -> bool
        requires { self.d.interleaved ≡ false }
        ensures { result ≡ whole_rows (description_of self.entry.d) self.entry.table.now }
    {
        let Some(row) = self.row_bytes() else {
            return false;
        };
        if row == 0 {
            return false;
        }
        let Ok(pages) = self.d.layout.expected_pages() else {
            return false;
        };
        (0..pages).all(|page| self.whole_page(page, row))
    }
}
