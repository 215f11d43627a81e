// Channel colours and names.
#![tactic(auto)]

mod tables;

ghost use Rattle.std.specs.Prelude.{◌≡◌, ◌+◌, ◌*◌};
ghost use Rattle.lsm_format.specs.Channels.{color_at, color, trimmed};
ghost use Rattle.lsm_format.specs.Code.{order_of, answer_by};
ghost use Rattle.lsm_format.specs.Words.{word};
ghost use Rattle.lsm_channel_colors.specs.Code.{meta_of, Looked};
ghost use Rattle.lsm_channel_colors.specs.Parts.{Stating};

use crate::tables::{find_name, read_pointers};
use lsm_bytes::positive;
use lsm_format::checked::{checked_add, checked_mul};
use lsm_format::error::Refusal;
use lsm_format::types::Endian;
use utf8::decode_lossy;

// The bytes of a colour word: red, green, blue and a zero byte.
const COLOR_WORD: usize = 4;

// A channel's display colour, red, green and blue as the file has them, and its name: the name's bytes are in the lent buffer, its length
// is here.
#[derive(Clone, Copy)]
pub struct ChannelMeta {
    pub color: Option<[u8; 3]>,
    pub name: Option<usize>,
}

// What the file states of a channel: its colour, and the bytes of its name.
#[derive(Clone, Copy, Default)]
struct Stated<'a> {
    color: Option<[u8; 3]>,
    name: Option<&'a [u8]>,
}

// The colour whose word stands at a place: all four bytes must be in the file.
#[tactic(auto, using(lsm_format::proofs::Channels::color_past, crate::proofs::Read::color_chunk))]
fn color_at(buf: &[u8], at: usize) -> Option<[u8; 3]>
    ensures { result ≡ color_at buf.now at }
{
    let [red, green, blue, _] = *buf.get(at..)?.first_chunk::<COLOR_WORD>()?;
    Some([red, green, blue])
}

// Where a channel's colour word stands. A handed-in block or channel can be any number, so the sum may overflow.
#[tactic(auto, unfolding(lsm_format::specs::Words::word))]
fn color_place(block: usize, table: usize, channel: usize) -> Option<usize>
    ensures { result ≡ word (block + table + 4 * channel) }
{
    checked_add(
        checked_add(block, table)?,
        checked_mul(COLOR_WORD, channel)?,
    )
}

// The colour of a channel.
#[tactic(auto, using(lsm_format::proofs::Told::back, crate::proofs::Read::color_with))]
fn read_color(buf: &[u8], block: usize, colors: i32, channel: usize) -> Option<[u8; 3]>
    ensures { result ≡ color buf.now block colors channel }
{
    let table = positive(colors)?;
    color_at(buf, color_place(block, table, channel)?)
}

// What the file states of a channel.
#[tactic(auto, unfolding(lsm_format::specs::Channels::channel_in, lsm_format::specs::Channels::name), using(lsm_format::proofs::Told::back))]
fn find_channel(buf: &[u8], block: Option<usize>, endian: Endian, channel: usize) -> Stated<'_>
    ensures { Stating (order_of endian) buf.now block channel result }
{
    let Some(place) = block else {
        return Stated::default();
    };
    let Some(pointers) = read_pointers(buf, place, endian) else {
        return Stated::default();
    };
    Stated {
        color: read_color(buf, place, pointers.colors, channel),
        name: find_name(buf, place, pointers.names, endian, channel),
    }
}

// A name without its trailing zeros.
#[tactic(auto, using(crate::proofs::Zeros::trimmed_zero, crate::proofs::Zeros::trimmed_kept, crate::proofs::Zeros::trimmed_empty))]
fn trimmed(bytes: &[u8]) -> &[u8]
    ensures { result.now ≡ trimmed bytes.now }
{
    let mut kept = bytes;
    while let Some((0, rest)) = kept.split_last() {
        kept = rest;
    }
    kept
}

// The colour and name of a channel of `channels`. The name's text is written to `name`; where it has no room, nothing is.
#[tactic(auto, using(lsm_format::proofs::Channels::lookup_outside, lsm_format::proofs::Channels::memory_outside, lsm_format::proofs::Channels::lookup_nameless, lsm_format::proofs::Channels::memory_nameless, lsm_format::proofs::Channels::memory_named, crate::proofs::Looked::seen_named, crate::proofs::Looked::seen_short))]
pub fn read_channel(
    buf: &[u8],
    block: Option<usize>,
    endian: Endian,
    channels: usize,
    channel: usize,
    name: &mut [u8],
) -> Result<ChannelMeta, Refusal>
    ensures { Looked (order_of endian) buf.now block channels channel name.old name.new (answer_by meta_of result) }
{
    if channels <= channel {
        return Err(Refusal::OutOfRange {
            scene: 0,
            t: 0,
            c: channel,
            z: 0,
        });
    }
    let stated = find_channel(buf, block, endian, channel);
    let color = stated.color;
    let Some(bytes) = stated.name else {
        return Ok(ChannelMeta { color, name: None });
    };
    let length = decode_lossy(trimmed(bytes), name)?;
    Ok(ChannelMeta {
        color,
        name: Some(length),
    })
}
