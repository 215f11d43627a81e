// The bytes of a channel's strips, copied. The parts of what is written are found by their places: once a loop over `chunks_exact_mut`,
// `as_chunks_mut` or a `zip`, or one that splits what is left, has lent them, a proof knows no more of the slice than its length.
ghost use Rattle.std.specs.Prelude.{◌≡◌, true, reverse, [], ◌++◌, ◌+◌, ◌-◌, ◌*◌, ◌/◌, ◌≤◌, ◌<◌, length, drop, get_or};
ghost use Rattle.lsm_format.specs.Picture.{span, bytes, window, channel_picture};
ghost use Rattle.lsm_format.specs.Code.{rect_of};
ghost use Rattle.lsm_format.specs.Sizes.{sample_size, picture_bytes};
ghost use Rattle.lsm_description.specs.Code.{description_of};
ghost use Rattle.lsm_strips.specs.Parts.{strips_of};
ghost use Rattle.lsm_strips.specs.Strips.{count_in, total_in, all_lie};
ghost use Rattle.lsm_region.specs.Rows.{stored_in, spaced, rows_of, RowsIn};
ghost use Rattle.lsm_region.specs.Ready.{Ready};

use lsm_description::Description;
use lsm_format::types::{DType, Endian, PixelRect};
use lsm_strips::StripRun;
use lsm_strips::walk::Cursor;

// A rectangle's rows in rows of `row` bytes: of each of the h rows from row y on `count` samples, the first at `start`, and each `step` bytes
// after the one before.
#[derive(Clone, Copy)]
struct Rows {
    row: usize,
    y: usize,
    h: usize,
    start: usize,
    count: usize,
    step: usize,
}

// Copies the bytes of one slice into another. The compiler makes wide moves of the loop, which copy faster than `copy_from_slice`, a call
// of C's memcpy.
#[tactic(auto, using(lsm_format::proofs::Lists::take_store, lsm_format::proofs::Lists::take_full))]
fn copy_bytes(from: &[u8], to: &mut [u8])
    requires { length to.old ≡ length from.now }
    ensures { to.new ≡ from.now }
{
    for (i, byte) in to.iter_mut().enumerate() {
        *byte = from[i];
    }
}

// Fills out with the joined strips' bytes from the cursor on. The cursor stands in the first of its strips; those behind it are copied from
// their start on.
fn copy_run(file: &[u8], cur: Cursor, out: &mut [u8])
    requires held { cur.into + length out.old ≤ total_in cur.strips.now }
    requires first { cur.into < count_in (get_or cur.strips.now 0 []) }
    requires within { all_lie (length file.now) cur.strips.now ≡ true }
    ensures { out.new ≡ bytes (stored_in file.now cur.entry.strips.now) cur.entry.into (length out.old) }
{
    let mut into = cur.into;
    let mut at = 0;
    for &[offset, count] in cur.strips {
        let m = (count - into).min(out.len() - at);
        let from = offset + into;
        copy_bytes(&file[from..from + m], &mut out[at..at + m]);
        at += m;
        if at == out.len() {
            return;
        }
        into = 0;
    }
}

// Fills out with n samples of S bytes, each `step` bytes after the one before. By way of an array of known length, a sample is moved by one
// instruction.
fn pick<const S: usize>(from: &[u8], step: usize, n: usize, out: &mut [u8])
    requires there { (n - 1) * step + S ≤ length from.now }
    requires out_len { length out.old ≡ n * S }
    ensures { out.new ≡ spaced (λ k. get_or from.now k 0) 0 step S n }
{
    for q in 0..n {
        let at = q * S;
        let place = q * step;
        let mut sample = [0; S];
        sample.copy_from_slice(&from[place..place + S]);
        out[at..at + S].copy_from_slice(&sample);
    }
}

// Puts samples at the front of out, of the n that are wanted as many as the cursor's strip has whole, and says how many. One that reaches into
// the next strip is put there alone.
fn copy_here<const S: usize>(
    file: &[u8],
    cur: Cursor,
    step: usize,
    n: usize,
    out: &mut [u8],
) -> usize
    requires some { (0 < S) × (0 < n) }
    requires apart { S ≤ step }
    requires out_len { length out.old ≡ n * S }
    requires reach { cur.into + (n - 1) * step + S ≤ total_in cur.strips.now }
    requires first { cur.into < count_in (get_or cur.strips.now 0 []) }
    requires within { all_lie (length file.now) cur.strips.now ≡ true }
    ensures put { out.new ≡ spaced (stored_in file.now cur.entry.strips.now) cur.entry.into step S result ++ drop (result * S) out.old }
    ensures count { (0 < result) × (result ≤ n) }
{
    let [offset, count] = cur.strips[0];
    let left = count - cur.into;
    if left < S {
        copy_run(file, cur, &mut out[..S]);
        return 1;
    }
    let here = n.min((left - S) / step + 1);
    let from = offset + cur.into;
    pick::<S>(&file[from..from + left], step, here, &mut out[..here * S]);
    here
}

// Fills out with n samples of the joined strips, from the cursor on.
fn copy_spaced<const S: usize>(file: &[u8], cur: Cursor, step: usize, n: usize, out: &mut [u8])
    requires some { (0 < S) × (0 < n) }
    requires apart { S ≤ step }
    requires out_len { length out.old ≡ n * S }
    requires reach { cur.into + (n - 1) * step + S ≤ total_in cur.strips.now }
    requires within { all_lie (length file.now) cur.strips.now ≡ true }
    ensures { out.new ≡ spaced (stored_in file.now cur.entry.strips.now) cur.entry.into step S n }
{
    let mut cur = cur;
    let mut ahead = 0;
    let mut done = 0;
    while done < n {
        cur = cur.seek(ahead, step).unwrap();
        ahead = copy_here::<S>(file, cur, step, n - done, &mut out[done * S..]);
        done += ahead;
    }
}

// The same. Samples that stand one after the other are one run of bytes.
#[inline(always)] // so that the loop over rows has the copy in it
fn copy_samples<const S: usize>(file: &[u8], cur: Cursor, step: usize, n: usize, out: &mut [u8])
    requires some { (0 < S) × (0 < n) }
    requires apart { S ≤ step }
    requires out_len { length out.old ≡ n * S }
    requires reach { cur.into + (n - 1) * step + S ≤ total_in cur.strips.now }
    requires first { cur.into < count_in (get_or cur.strips.now 0 []) }
    requires within { all_lie (length file.now) cur.strips.now ≡ true }
    ensures { out.new ≡ spaced (stored_in file.now cur.entry.strips.now) cur.entry.into step S n }
{
    if step == S {
        copy_run(file, cur, out);
    } else {
        copy_spaced::<S>(file, cur, step, n, out);
    }
}

// Fills out with a rectangle's rows, each from where it starts.
fn copy_rows<const S: usize>(file: &[u8], strips: &[[usize; 2]], rows: Rows, out: &mut [u8])
    requires rows_in { RowsIn S (length file.now) strips.now rows }
    requires out_len { length out.old ≡ rows.h * (rows.count * S) }
    ensures { out.new ≡ rows_of S file.now strips.now rows }
{
    let mut cur = Cursor {
        strips,
        into: rows.start,
    };
    let mut ahead = rows.y;
    for i in 0..rows.h {
        cur = cur.seek(ahead, rows.row).unwrap();
        let part = rows.count * S;
        let at = i * part;
        copy_samples::<S>(file, cur, rows.step, rows.count, &mut out[at..at + part]);
        ahead = 1;
    }
}

// The same. The samples of rows that are wanted whole follow one another, and are copied strip by strip.
fn gather<const S: usize>(file: &[u8], strips: &[[usize; 2]], rows: Rows, out: &mut [u8])
    requires rows_in { RowsIn S (length file.now) strips.now rows }
    requires out_len { length out.old ≡ rows.h * (rows.count * S) }
    requires some { 0 < rows.h }
    ensures { out.new ≡ rows_of S file.now strips.now rows }
{
    if rows.count * rows.step < rows.row {
        copy_rows::<S>(file, strips, rows, out);
        return;
    }
    let first = Cursor {
        strips,
        into: rows.start,
    };
    let top = first.seek(rows.y, rows.row).unwrap();
    copy_samples::<S>(file, top, rows.step, rows.h * rows.count, out);
}

// Turns samples of S bytes around, each in its place. By way of an array of known length, a turn is one instruction.
fn turn<const S: usize>(out: &mut [u8])
    requires some { 0 < S }
    requires whole { length out.old / S * S ≡ length out.old }
    ensures { out.new ≡ span 0 (length out.old / S) (λ q. reverse (bytes (λ k. get_or out.old k 0) (q * S) S)) }
{
    for q in 0..out.len() / S {
        let at = q * S;
        let sample = &mut out[at..at + S];
        let mut turned = [0; S];
        turned.copy_from_slice(sample);
        turned.reverse();
        sample.copy_from_slice(&turned);
    }
}

// The samples of a rectangle, of S bytes each, little-endian whatever the file's order.
fn fill_samples<const S: usize>(
    file: &[u8],
    d: Description,
    table: &[usize],
    run: StripRun,
    rect: PixelRect,
    out: &mut [u8],
)
    requires ready { Ready (description_of d) table.now (length file.now) (strips_of run) (rect_of rect) }
    requires size { sample_size (description_of d).kind ≡ S }
    requires out_len { length out.old ≡ picture_bytes rect.w rect.h (description_of d).kind }
    requires some { 0 < length out.old }
    ensures { out.new ≡ window (channel_picture (description_of d) table.now file.now (strips_of run)) (rect_of rect) }
{
    let step = d.pixel_samples() * S;
    let rows = Rows {
        row: d.dims.x * step,
        y: rect.y,
        h: rect.h,
        start: rect.x * step + run.sample * S,
        count: rect.w,
        step,
    };
    gather::<S>(file, run.of(table).unwrap(), rows, out);
    if let Endian::Big = d.endian {
        if 1 < S {
            turn::<S>(out); // one byte has no order
        }
    }
}

// The same, by the kind of sample.
pub(crate) fn fill(
    file: &[u8],
    d: Description,
    table: &[usize],
    run: StripRun,
    rect: PixelRect,
    out: &mut [u8],
)
    requires ready { Ready (description_of d) table.now (length file.now) (strips_of run) (rect_of rect) }
    requires out_len { length out.old ≡ picture_bytes rect.w rect.h (description_of d).kind }
    requires some { 0 < length out.old }
    ensures { out.new ≡ window (channel_picture (description_of d) table.now file.now (strips_of run)) (rect_of rect) }
{
    match d.dtype {
        DType::U8 => fill_samples::<1>(file, d, table, run, rect, out),
        DType::U16 | DType::I16 => fill_samples::<2>(file, d, table, run, rect, out),
        DType::F32 => fill_samples::<4>(file, d, table, run, rect, out),
    }
}
