// Bounds-checked reads of the numbers that a file is made of. Every read answers: the number, or that it passes the end. A buffer, a place
// and the order are three arguments, as in the Rust: most callers have the order once and the place many times.
#![tactic(auto)]

ghost use Rattle.std.specs.Prelude.{◌≡◌};
ghost use Rattle.lsm_format.specs.Code.{order_of, answer_of};
ghost use Rattle.lsm_format.specs.Numbers.{part_at, u8_at, u16_at, u32_at, i32_at, positive_of, f64_bits_at};

use lsm_format::error::Refusal;
use lsm_format::types::Endian;

// The `N` bytes at `off`, or the refusal that says that there are none. The test is by the last place that has so many bytes after it, which
// is the same all over a file, so that a read costs one comparison: with `get(off..)` it costs two, and opening takes longer.
#[tactic(auto, using(lsm_format::proofs::Numbers::part_past, lsm_format::proofs::Told::ok_or_given, crate::proofs::Bytes::chunk_part))]
fn bytes_at<const N: usize>(buf: &[u8], off: usize) -> Result<[u8; N], Refusal>
    ensures { answer_of result ≡ part_at buf.now off N }
{
    let last = buf.len().checked_sub(N).ok_or(Refusal::Parse)?;
    if last < off {
        return Err(Refusal::Parse);
    }
    buf[off..off + N]
        .first_chunk()
        .copied()
        .ok_or(Refusal::Parse)
}

// Read a `u8` at `off`.
#[tactic(auto, unfolding(lsm_format::specs::Numbers::number_at, lsm_format::specs::Numbers::part_at, lsm_format::specs::Answer::bind), using(lsm_format::proofs::Told::ok_or_given))]
pub fn read_u8(buf: &[u8], off: usize) -> Result<u8, Refusal>
    ensures { answer_of result ≡ u8_at buf.now off }
{
    buf.get(off).copied().ok_or(Refusal::Parse)
}

// The reads of two, four and eight bytes keep their own `match`: std's functions are named by their width, so a trait over the widths would
// be no plainer, with this `match` in each of its impls.

// Read a `u16` at `off`.
#[tactic(auto, unfolding(lsm_format::specs::Numbers::number_at, lsm_format::specs::Answer::bind), using(crate::proofs::Bytes::le_16, crate::proofs::Bytes::be_16))]
pub fn read_u16(buf: &[u8], off: usize, e: Endian) -> Result<u16, Refusal>
    ensures { answer_of result ≡ u16_at (order_of e) buf.now off }
{
    let bytes = bytes_at(buf, off)?;
    Ok(match e {
        Endian::Little => u16::from_le_bytes(bytes),
        Endian::Big => u16::from_be_bytes(bytes),
    })
}

// Read a `u32` at `off`.
#[tactic(auto, unfolding(lsm_format::specs::Numbers::number_at, lsm_format::specs::Answer::bind), using(crate::proofs::Bytes::le_32, crate::proofs::Bytes::be_32))]
pub fn read_u32(buf: &[u8], off: usize, e: Endian) -> Result<u32, Refusal>
    ensures { answer_of result ≡ u32_at (order_of e) buf.now off }
{
    let bytes = bytes_at(buf, off)?;
    Ok(match e {
        Endian::Little => u32::from_le_bytes(bytes),
        Endian::Big => u32::from_be_bytes(bytes),
    })
}

// Read an `i32` at `off`.
#[tactic(auto, unfolding(lsm_format::specs::Numbers::i32_at, lsm_format::specs::Numbers::signed32, lsm_format::specs::Answer::bind))]
pub fn read_i32(buf: &[u8], off: usize, e: Endian) -> Result<i32, Refusal>
    ensures { answer_of result ≡ i32_at (order_of e) buf.now off }
{
    let n = read_u32(buf, off, e)?;
    Ok(n.cast_signed())
}

// A signed number as a place or a length: one that is not above 0 states none.
pub fn positive(n: i32) -> Option<usize>
    ensures { result ≡ positive_of n }
{
    usize::try_from(n).ok().filter(|&size| size > 0)
}

// Read the bits of an `f64` at `off`. A NaN's pattern is no float here, so the bits are handed on as they are.
#[tactic(auto, unfolding(lsm_format::specs::Numbers::number_at, lsm_format::specs::Answer::bind), using(crate::proofs::Bytes::le_64, crate::proofs::Bytes::be_64))]
pub fn read_f64_bits(buf: &[u8], off: usize, e: Endian) -> Result<u64, Refusal>
    ensures { answer_of result ≡ f64_bits_at (order_of e) buf.now off }
{
    let bytes = bytes_at(buf, off)?;
    Ok(match e {
        Endian::Little => u64::from_le_bytes(bytes),
        Endian::Big => u64::from_be_bytes(bytes),
    })
}
