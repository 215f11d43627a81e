// The static library of the C interface (include/lsm.h): each export calls the function of `lsm_c` that has its name, and promises what
// that promises.
#![tactic(auto)]

ghost use Rattle.lsm_format.specs.Rectangle.{coordinate};
ghost use Rattle.lsm_c.specs.Calls.{OpenedBy, LookedUp, PicturedBy, plane_by, region_by};

use lsm_words::answers::{CHANNEL_WORDS, OPEN_WORDS, PICTURE_WORDS};
use lsm_words::description::DESCRIPTION_WORDS;

// Opens a file and writes its strips into the table.
#[unsafe(no_mangle)]
pub extern "C" fn lsm_open(
    file: &[u8],
    table: &mut [usize],
    answer: &mut [usize; OPEN_WORDS],
) -> usize
    ensures { OpenedBy file.now table.old table.new answer.new result }
{
    lsm_c::lsm_open(file, table, answer)
}

// The colour and name of a channel. The name's text is written to `name`.
#[unsafe(no_mangle)]
pub extern "C" fn lsm_channel(
    file: &[u8],
    description: &[usize; DESCRIPTION_WORDS],
    index: usize,
    name: &mut [u8],
    answer: &mut [usize; CHANNEL_WORDS],
) -> usize
    ensures { LookedUp file.now description.now index name.old name.new answer.new result }
{
    lsm_c::lsm_channel(file, description, index, name, answer)
}

// A whole picture. Its samples are written to `out`, little-endian, row by row.
#[unsafe(no_mangle)]
pub extern "C" fn lsm_plane(
    file: &[u8],
    description: &[usize; DESCRIPTION_WORDS],
    table: &[usize],
    scene: usize,
    t: usize,
    c: usize,
    z: usize,
    out: &mut [u8],
    answer: &mut [usize; PICTURE_WORDS],
) -> usize
    ensures { PicturedBy (plane_by description.now table.now file.now (coordinate scene t c z)) out.old out.new answer.new result }
{
    lsm_c::pictures::lsm_plane(file, description, table, scene, t, c, z, out, answer)
}

// A rectangle of a picture: column x, row y, w columns and h rows.
#[unsafe(no_mangle)]
pub extern "C" fn lsm_region(
    file: &[u8],
    description: &[usize; DESCRIPTION_WORDS],
    table: &[usize],
    scene: usize,
    t: usize,
    c: usize,
    z: usize,
    x: usize,
    y: usize,
    w: usize,
    h: usize,
    out: &mut [u8],
    answer: &mut [usize; PICTURE_WORDS],
) -> usize
    ensures { PicturedBy (region_by description.now table.now file.now (coordinate scene t c z) (record { x = x; y = y; w = w; h = h })) out.old out.new answer.new result }
{
    lsm_c::pictures::lsm_region(
        file,
        description,
        table,
        scene,
        t,
        c,
        z,
        x,
        y,
        w,
        h,
        out,
        answer,
    )
}
