// Pictures through the C interface.
ghost use Rattle.lsm_format.specs.Code.{rect_of, coordinate_of, answer_by};
ghost use Rattle.lsm_format.specs.Rectangle.{coordinate};
ghost use Rattle.lsm_region.specs.Code.{shape_of_picture, Pictured};
ghost use Rattle.lsm_c.specs.Calls.{plane_by, region_by, PicturedBy};

use crate::hand;
use lsm_format::error::Refusal;
use lsm_format::types::{Coordinate, PixelRect};
use lsm_region::{Picture, plane, region};
use lsm_words::answers::{PICTURE_WORDS, picture_words};
use lsm_words::description::{DESCRIPTION_WORDS, read_description};

// The picture with the description that these words are. No description is refused before anything else.
#[tactic(auto, unfolding(crate::specs::Calls::plane_by, lsm_format::specs::Picture::into, lsm_format::specs::Answer::bind))]
fn plane_by(
    file: &[u8],
    description: &[usize; DESCRIPTION_WORDS],
    table: &[usize],
    co: Coordinate,
    out: &mut [u8],
) -> Result<Picture, Refusal>
    ensures { Pictured (plane_by description.now table.now file.now (coordinate_of co)) out.old out.new (answer_by shape_of_picture result) }
{
    let d = read_description(description)?;
    plane(file, d, table, co, out)
}

#[tactic(auto, unfolding(crate::specs::Calls::region_by, lsm_format::specs::Picture::into, lsm_format::specs::Answer::bind))]
fn region_by(
    file: &[u8],
    description: &[usize; DESCRIPTION_WORDS],
    table: &[usize],
    co: Coordinate,
    rect: PixelRect,
    out: &mut [u8],
) -> Result<Picture, Refusal>
    ensures { Pictured (region_by description.now table.now file.now (coordinate_of co) (rect_of rect)) out.old out.new (answer_by shape_of_picture result) }
{
    let d = read_description(description)?;
    region(file, d, table, co, rect, out)
}

// A whole picture. Its samples are written to `out`, little-endian, row by row.
#[tactic(auto, using(crate::proofs::Calls::pictured_by))]
pub fn lsm_plane(
    file: &[u8],
    description: &[usize; DESCRIPTION_WORDS],
    table: &[usize],
    scene: usize,
    t: usize,
    c: usize,
    z: usize,
    out: &mut [u8],
    answer: &mut [usize; PICTURE_WORDS],
) -> usize
    ensures { PicturedBy (plane_by description.now table.now file.now (coordinate scene t c z)) out.old out.new answer.new result }
{
    let co = Coordinate { scene, t, c, z };
    hand(
        picture_words(plane_by(file, description, table, co, out)),
        answer,
    )
}

// A rectangle of a picture: column x, row y, w columns and h rows.
#[tactic(auto, using(crate::proofs::Calls::pictured_by))]
pub fn lsm_region(
    file: &[u8],
    description: &[usize; DESCRIPTION_WORDS],
    table: &[usize],
    scene: usize,
    t: usize,
    c: usize,
    z: usize,
    x: usize,
    y: usize,
    w: usize,
    h: usize,
    out: &mut [u8],
    answer: &mut [usize; PICTURE_WORDS],
) -> usize
    ensures { PicturedBy (region_by description.now table.now file.now (coordinate scene t c z) (record { x = x; y = y; w = w; h = h })) out.old out.new answer.new result }
{
    let co = Coordinate { scene, t, c, z };
    let rect = PixelRect { x, y, w, h };
    hand(
        picture_words(region_by(file, description, table, co, rect, out)),
        answer,
    )
}
