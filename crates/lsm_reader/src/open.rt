// Opening a file: the header, the walk along the directories, the description, and the strip table once every check has passed.
ghost use Rattle.std.specs.Prelude.{◌≡◌, List, ◌*◌, ◌-◌, ◌^◌, min, length};
ghost use Rattle.lsm_format.specs.Code.{order_of, answer_by};
ghost use Rattle.lsm_format.specs.Open.{Page};
ghost use Rattle.lsm_format.specs.Open as Open;
ghost use Rattle.lsm_description.specs.Code.{description_of};
ghost use Rattle.lsm_reader.specs.Walked.{walk_of};
ghost use Rattle.lsm_reader.specs.Opening.{strips_of, OpenedAs};

use crate::chain::{Walk, walk_chain};
use crate::header::read_tiff_header;
use lsm_cz_info::parse;
use lsm_description::{Description, describe, map_dtype};
use lsm_format::error::Refusal;
use lsm_format::guard::MAX_MMAP_BYTES;
use lsm_format::types::Endian;

// The Compression of strips that hold the samples as they are.
const UNCOMPRESSED: u32 = 1;

// The description of a file whose directories are walked.
#[tactic(auto, unfolding(lsm_format::specs::Open::describe_walk, lsm_format::specs::Answer::bind))]
fn describe_walk(buf: &[u8], e: Endian, w: Walk) -> Result<Description, Refusal>
    ensures { (ps : List Page) → w.pages ≡ length ps → answer_by description_of result ≡ Open.describe_walk (order_of e) buf.now (walk_of (order_of e) buf.now ps w) }
{
    let page = w.first.ok_or(Refusal::Decode)?;
    if page.compression != UNCOMPRESSED {
        return Err(Refusal::Unsupported);
    }
    let dtype = map_dtype(page.sample_format, page.bits)?;
    let tag = w.cz.ok_or(Refusal::Decode)?;
    let info = parse(buf, tag, e)?;
    describe(e, dtype, page, w.pages, info)
}

// The words of the strip table: two for each strip of each full page. A number that passes 64 bits is capped at the largest.
fn table_words(w: Walk) -> usize
    ensures { result ≡ min (w.pages * strips_of w.first * 2) (2 ^ 64 - 1) }
{
    w.first.map_or(0, |page| {
        w.pages.saturating_mul(page.offsets.count).saturating_mul(2)
    })
}

// What opening gives: the description, how many directories were visited, and how many words of the table were written.
#[derive(Clone, Copy)]
pub struct Opened {
    pub description: Description,
    pub visited: usize,
    pub words: usize,
}

// Opens a file and writes its strips into the table. Nothing is written before every check has passed, the table's length last: the
// directories are judged with no room lent, and walked again with all of it.
#[tactic(auto, unfolding(lsm_format::specs::Open::open_file, lsm_format::specs::Open::open_memory, lsm_format::specs::Open::read, lsm_format::specs::Answer::bind), using(crate::proofs::Words::walked_words, lsm_format::proofs::Lent::lend_room, lsm_format::proofs::Lent::lend_short, lsm_format::proofs::Lent::filled_room, lsm_format::proofs::Lent::filled_short))]
pub fn open_file(buf: &[u8], table: &mut [usize]) -> Result<Opened, Refusal>
    ensures { OpenedAs buf.now table.old table.new result }
{
    if MAX_MMAP_BYTES < buf.len() {
        return Err(Refusal::OversizedAllocation {
            requested: buf.len(),
            cap: MAX_MMAP_BYTES,
        });
    }
    let e = read_tiff_header(buf)?;
    let w = walk_chain(buf, e, &mut [])?;
    let description = describe_walk(buf, e, w)?;
    let words = table_words(w);
    if table.len() < words {
        return Err(Refusal::TooShort { needed: words });
    }
    walk_chain(buf, e, table)?;
    Ok(Opened {
        description,
        visited: w.visited,
        words,
    })
}
