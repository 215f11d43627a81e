// A CZ-LSM-Info block that lies in the file: the header, from which the block's length comes, and reads within it.
ghost use Rattle.std.specs.Prelude.{◌≡◌, ◌+◌, ◌≤◌, ◌<◌, length, IfOk};
ghost use Rattle.lsm_format.specs.Code.{order_of, answer_of, answer_by};
ghost use Rattle.lsm_format.specs.Numbers.{i32_at, f64_bits_at};
ghost use Rattle.lsm_format.specs.CzInfo.{block_length, header};

use lsm_bytes::{positive, read_f64_bits, read_i32};
use lsm_format::error::Refusal;
use lsm_format::types::{CzTag, Endian};

// What every block starts with.
const MAGIC: i32 = 0x0400_494C;

// The magic number and the size that the block states of itself.
const HEADER_BYTES: usize = 8;

const SIZE_AT: usize = 4;

// The least length of a block: its dimensions end here.
const DIMENSIONS_END: usize = 28;

// The smaller of what the entry declares and what the block states; a block that states no size is as long as declared.
fn block_length(declared: usize, size: i32) -> usize
    ensures { result ≡ block_length declared size }
{
    positive(size).map_or(declared, |own| declared.min(own))
}

// A block that lies in the file, and is long enough for the dimensions.
#[derive(Clone, Copy)]
pub(crate) struct Block<'a> {
    // the file
    buf: &'a [u8],
    // where the block stands in it, and its length
    start: usize,
    pub bytes: usize,
    endian: Endian,
    ghost within: { start + bytes ≤ length buf.now },
    ghost least: { 28 ≤ bytes },
}

impl<'a> Block<'a> {
    // The block that the entry announces, once it is known to be one.
    #[tactic(auto, unfolding(lsm_format::specs::CzInfo::header, lsm_format::specs::Answer::bind))]
    pub(crate) fn open(buf: &'a [u8], tag: CzTag, endian: Endian) -> Result<Block<'a>, Refusal>
        ensures header { answer_by (λ b. b.bytes) result ≡ header (order_of endian) buf.now tag.offset tag.declared_bytes }
        ensures place { IfOk result (λ b. (b.buf.now ≡ buf.now) × (b.start ≡ tag.offset) × (b.endian ≡ endian)) }
    {
        let present = buf.len().checked_sub(tag.offset).ok_or(Refusal::Decode)?;
        if tag.declared_bytes < HEADER_BYTES || present < tag.declared_bytes {
            return Err(Refusal::Decode);
        }
        let magic = read_i32(buf, tag.offset, endian)?;
        if magic != MAGIC {
            return Err(Refusal::Decode);
        }
        let size = read_i32(buf, tag.offset + SIZE_AT, endian)?;
        let bytes = block_length(tag.declared_bytes, size);
        if bytes < DIMENSIONS_END {
            return Err(Refusal::Decode);
        }
        Ok(Block {
            buf,
            start: tag.offset,
            bytes,
            endian,
        })
    }

    // The number that starts at `at` in the block. It and the next differ in the reader that they call: a generic one would need a trait for two.
    pub(crate) fn number(&self, at: usize) -> Result<i32, Refusal>
        requires { at < self.now.bytes }
        ensures { answer_of result ≡ i32_at (order_of self.now.endian) self.now.buf.now (self.now.start + at) }
    {
        read_i32(self.buf, self.start + at, self.endian)
    }

    // The bits of the f64 that starts at `at` in the block.
    pub(crate) fn float_bits(&self, at: usize) -> Result<u64, Refusal>
        requires { at < self.now.bytes }
        ensures { answer_of result ≡ f64_bits_at (order_of self.now.endian) self.now.buf.now (self.now.start + at) }
    {
        read_f64_bits(self.buf, self.start + at, self.endian)
    }
}
