// The scenes of a file and the pages that each of them owns.
//
// One acquisition can be split into several shots: a mosaic as tiles, or several stage positions. Each owns its own pages and is a
// scene. A scene may be scanned again and again: it has its pages time point after time point, one for each focal plane.
#![tactic(auto)]

ghost use Rattle.std.specs.Prelude.{◌≡◌, ℕ, ◌+◌, ◌*◌, Option};
ghost use Rattle.lsm_format.specs.Code.{answer_of, answer_by, coordinate_of};
ghost use Rattle.lsm_format.specs.Scenes.{count, layout, pages_expected, page_of};
ghost use Rattle.lsm_format.specs.Words.{word};
ghost use Rattle.lsm_positions.specs.Code.{layout_of};

use lsm_format::checked::{checked_add, checked_mul};
use lsm_format::error::Refusal;
use lsm_format::types::Coordinate;

// How a file's pages are shared out.
#[derive(Clone, Copy)]
pub struct LsmLayout {
    // How many scenes the file holds.
    pub scenes: usize,
    // The time points of one scene.
    pub time_points: usize,
    // The pages of one time point: its focal planes.
    pub pages_per_time_point: usize,
}

// A count of positions or tiles as the file states it.
fn counted(n: i32) -> Result<u32, Refusal>
    ensures { answer_of result ≡ count n }
{
    u32::try_from(n).map_err(|_| Refusal::Decode)
}

// How many time points of all scenes come before a scene's time point `t`, where a scene has `time_points`.
#[tactic(auto, using(lsm_format::proofs::Words::sum_none, lsm_format::proofs::Words::word_some))]
fn points_before(scene: usize, time_points: usize, t: usize) -> Option<usize>
    ensures { result ≡ word (scene * time_points + t) }
{
    checked_add(checked_mul(scene, time_points)?, t)
}

impl LsmLayout {
    // The layout of a file with these counts of positions and tiles, so many time points and this depth. A file that states no counts has
    // one scene.
    #[tactic(auto, unfolding(lsm_format::specs::Scenes::layout, lsm_format::specs::Scenes::scenes, lsm_format::specs::Answer::bind))]
    pub fn new(positions: i32, tiles: i32, t: usize, z: usize) -> Result<LsmLayout, Refusal>
        ensures { answer_by layout_of result ≡ layout positions tiles t z }
    {
        let positions = counted(positions)?;
        let tiles = counted(tiles)?;
        // Two counts below 2^31: the product can't overflow, so the Rust's saturation is never met.
        let product = (positions as usize) * (tiles as usize);
        Ok(LsmLayout {
            scenes: product.max(1),
            time_points: t,
            pages_per_time_point: z,
        })
    }

    // How many scenes the file holds.
    pub fn scene_count(self) -> usize
        ensures { result ≡ self.scenes }
    {
        self.scenes
    }

    // The pages of all time points before a scene's time point `t`. They are reckoned exactly: where a time point has no page there are
    // none, though the number of time points overflow.
    #[tactic(auto, using(lsm_format::proofs::Words::product_none, lsm_format::proofs::Words::word_some, lsm_format::proofs::Words::word_fits))]
    fn pages_before(self, scene: usize, t: usize) -> Option<usize>
        ensures { result ≡ word ((scene * self.time_points + t) * self.pages_per_time_point) }
    {
        if self.pages_per_time_point == 0 {
            return Some(0);
        }
        let points = points_before(scene, self.time_points, t)?;
        checked_mul(points, self.pages_per_time_point)
    }

    // The pages that the whole file must hold: all before the scene that would come after the last.
    #[tactic(auto, using(lsm_format::proofs::Told::ok_or_given), unfolding(lsm_format::specs::Scenes::pages_expected))]
    pub fn expected_pages(self) -> Result<usize, Refusal>
        ensures { answer_of result ≡ pages_expected (layout_of self) }
    {
        self.pages_before(self.scenes, 0).ok_or(Refusal::Decode)
    }

    // The page of a focal plane: the file has every page of the first scene, then every page of the second, and so on; and of a scene
    // every page of the first time point, then every page of the second. None for a scene that is not there, and where the number overflows.
    #[tactic(auto, unfolding(lsm_format::specs::Scenes::page_of), using(lsm_format::proofs::Words::sum_none, lsm_format::proofs::Words::word_some))]
    pub fn page_index(self, co: Coordinate) -> Option<usize>
        ensures { result ≡ page_of (layout_of self) (coordinate_of co) }
    {
        if self.scenes <= co.scene {
            return None;
        }
        let first = self.pages_before(co.scene, co.t)?;
        checked_add(first, co.z)
    }
}
