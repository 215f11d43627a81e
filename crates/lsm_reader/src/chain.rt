// The walk along the chain of directories, and the strips that it lays into the table.
ghost use Rattle.std.specs.Prelude.{◌≡◌, List, [], ◌++◌, ℕ, ◌+◌, ◌*◌, ◌≤◌, ◌<◌, length, IfOk};
ghost use Rattle.lsm_format.specs.Code.{order_of, answer_by};
ghost use Rattle.lsm_format.specs.Numbers.{Order};
ghost use Rattle.lsm_format.specs.Open.{Page, pages_of, strip_words, table_words};
ghost use Rattle.lsm_format.specs.Open as Open;
ghost use Rattle.lsm_values.specs.Code.{values_of};
ghost use Rattle.lsm_directory.specs.Code.{directory_of, ends_of};
ghost use Rattle.lsm_reader.specs.Walked.{LaidPage, walk_of, visit_ends, marked, WalkedAs};

use lsm_bytes::read_u32;
use lsm_directory::{Directory, Ends, agrees, directory_ends, is_reduced, put_value, read_entry};
use lsm_format::error::Refusal;
use lsm_format::types::{CzTag, Endian};
use lsm_values::{Array, strip_value};

// What the directories visited so far tell.
#[derive(Clone, Copy)]
pub struct Walk {
    pub visited: usize,
    pub pages: usize,
    pub first: Option<Directory>,
    pub cz: Option<CzTag>,
}

impl Default for Walk {
    ghost is_default = { λ w. (w.visited ≡ 0) × (w.pages ≡ 0) × ((o : Order) (f : List ℕ) → walk_of o f [] w ≡ Open.start) };

    // The walk before its first directory.
    fn default() -> Walk {
        Walk {
            visited: 0,
            pages: 0,
            first: None,
            cz: None,
        }
    }
}

// A directory that agrees joins the walk. The first full page is kept, and the first directory that has a CZ entry wins: a reduced page
// supplies at most that.
#[tactic(auto, using(crate::proofs::Walks::one_more, crate::proofs::Walks::kept_or, lsm_format::proofs::Open::stays))]
fn join(w: Walk, d: Directory) -> Walk
    requires { (w.visited < 1000000) × (w.pages ≤ w.visited) }
    ensures joined { (o : Order) (f : List ℕ) (ps : List Page) → walk_of o f (ps ++ pages_of (directory_of o f d)) result ≡ Open.joined (walk_of o f ps w) (directory_of o f d) }
    ensures stepped { (result.visited ≡ w.visited + 1) × (result.pages ≤ w.pages + 1) }
    ensures counted { (o : Order) (f : List ℕ) (ps : List Page) → w.pages ≡ length ps → result.pages ≡ length (ps ++ pages_of (directory_of o f d)) }
{
    let cz = w.cz.or(d.cz);
    if is_reduced(d.new_subfile_type) {
        return Walk {
            visited: w.visited + 1,
            cz, // the entry of a reduced page counts
            ..w
        };
    }
    Walk {
        visited: w.visited + 1,
        pages: w.pages + 1,
        first: w.first.or(Some(d)),
        cz,
    }
}

// The most directories of a file.
const MAX_IFDS: usize = 1_000_000;

// The ends of the directory at a place, where one more may be visited.
#[tactic(auto, unfolding(crate::specs::Walked::visit_ends, lsm_format::specs::Answer::bind))]
fn visit(buf: &[u8], place: usize, visited: usize, e: Endian) -> Result<Ends, Refusal>
    ensures ends { answer_by ends_of result ≡ visit_ends (order_of e) buf.now place visited }
    ensures below { IfOk result (λ _. visited < 1000000) }
{
    if MAX_IFDS <= visited {
        return Err(Refusal::Parse);
    }
    directory_ends(buf, place, e)
}

// A place of the chain that a circle comes back to, and the visit at which the mark moves on.
#[derive(Clone, Copy)]
pub struct Mark {
    pub place: usize,
    pub until: usize,
}

// The mark moves to the place ahead at visits 1, 2, 4, 8 and so on. So it stands on the circle of a chain that has one before the walk is
// twice as long as the way there and the circle, and the walk then comes back to it within one round.
fn move_mark(m: Mark, visited: usize, place: usize) -> Mark
    requires { visited ≤ 1000000 }
    ensures { result ≡ marked m visited place }
{
    if visited < m.until {
        return m;
    }
    Mark {
        place,
        until: 2 * visited,
    }
}

// The words of a page's strips: strip by strip, offset then count. They are stored by their places: std says nothing of what a slice that was
// cut into chunks (`as_chunks_mut`) ends as.
#[tactic(auto, using(crate::proofs::Walks::strip_more, crate::proofs::Walks::strips_all))]
fn fill_strips(buf: &[u8], offsets: Array, counts: Array, e: Endian, out: &mut [usize])
    requires { (length out.old ≡ 2 * offsets.count) × (counts.count ≡ offsets.count) }
    ensures { out.new ≡ strip_words (values_of (order_of e) buf.now offsets) (values_of (order_of e) buf.now counts) }
{
    for i in 0..offsets.count {
        out[2 * i] = strip_value(buf, offsets, i, e);
        out[2 * i + 1] = strip_value(buf, counts, i, e);
    }
}

// Lays a full page's strips into the table from word `used` on, if there is room for them; answers how many words are used then.
#[tactic(auto, using(crate::proofs::Walks::words_long, crate::proofs::Walks::page_long, crate::proofs::Walks::laid_nothing, crate::proofs::Walks::laid_short, crate::proofs::Walks::laid_there))]
fn lay_page(buf: &[u8], d: Directory, e: Endian, used: usize, table: &mut [usize]) -> usize
    requires { (used ≤ length table.old) × (d.offsets.count ≡ d.counts.count) }
    ensures { LaidPage (table_words (pages_of (directory_of (order_of e) buf.now d))) used table.old table.new result }
{
    if is_reduced(d.new_subfile_type) {
        return used;
    }
    if (table.len() - used) / 2 < d.offsets.count {
        return used;
    }
    let end = used + 2 * d.offsets.count;
    fill_strips(buf, d.offsets, d.counts, e, &mut table[used..end]);
    end
}

// Walks the chain and judges every directory on it; it is left at the first refusal, from inside an entry too. A labelled loop in a labelled
// loop is the form that the project asks for here. A chain in a circle never ends, and would be refused after 1,000,000 visits: it is refused
// when the walk comes back to the mark. The strips of the full pages are laid into the table as far as there is room, so a table of no words
// is left as it is.
#[tactic(auto, unfolding(lsm_format::specs::Answer::bind, lsm_format::specs::Open::walk), using(crate::proofs::Turns::chain_visits, crate::proofs::Turns::refused_as, lsm_format::proofs::Open::chain_end, crate::proofs::Turns::equal_counts, crate::proofs::Entries::entries_over, crate::proofs::Entries::entries_more))]
pub(crate) fn walk_chain(buf: &[u8], e: Endian, table: &mut [usize]) -> Result<Walk, Refusal>
    ensures { WalkedAs (order_of e) buf.now table.old table.new result }
{
    let mut place = read_u32(buf, 4, e)? as usize;
    let mut mark = Mark { place, until: 1 };
    let mut w = Walk::default();
    let mut used: usize = 0;
    'dirs: loop {
        if place == 0 {
            break 'dirs Ok(w);
        }
        let ends = visit(buf, place, w.visited, e)?;
        let mut d = Directory::default();
        'entries: for i in 0..ends.entries {
            match read_entry(buf, place + 2 + 12 * i, e) {
                Ok(v) => d = put_value(d, v),
                Err(r) => break 'dirs Err(r),
            }
        }
        agrees(buf, w.first, d, e)?;
        w = join(w, d);
        used = lay_page(buf, d, e, used, table);
        if ends.next == mark.place {
            break 'dirs Err(Refusal::Parse);
        }
        mark = move_mark(mark, w.visited, ends.next);
        place = ends.next;
    }
}
