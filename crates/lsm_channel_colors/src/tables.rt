// The tables of a channel block: the pointers to them, and the records of the names.
ghost use Rattle.std.specs.Prelude.{◌≡◌, ◌+◌, ◌≤◌, length, option_map, IfSome};
ghost use Rattle.lsm_format.specs.Channels.{pointers, name_record, record_of, name_span};
ghost use Rattle.lsm_format.specs.Code.{order_of};
ghost use Rattle.lsm_channel_colors.specs.Tables.{natural, read, pointers_of, span_of, bytes_in};

use lsm_bytes::{positive, read_i32};
use lsm_format::checked::checked_add;
use lsm_format::types::Endian;

// Where in the block the two pointers stand: to the colours and to the names.
const TABLE_POINTERS: usize = 12;

// The longest name that is given. A longer one leaves its channel without a name.
const MAX_NAME_BYTES: usize = 1024;

// The two pointers, counted from the block.
#[derive(Clone, Copy)]
pub(crate) struct Pointers {
    pub(crate) colors: i32,
    pub(crate) names: i32,
}

// A name's record: where its bytes start and how many they are.
#[derive(Clone, Copy)]
struct Record {
    start: usize,
    len: usize,
}

// A length: a negative one is none.
fn counted(n: i32) -> Option<usize>
    ensures { result ≡ natural n }
{
    usize::try_from(n).ok()
}

// The file and its byte order stay two arguments here, as in `read_i32` and in `read_channel`.

// The two pointers, where all eight bytes are in the file.
#[tactic(auto, using(lsm_format::proofs::Told::back, lsm_format::proofs::Channels::signed_there, crate::proofs::Read::ok_read, crate::proofs::Read::pointers_read))]
pub(crate) fn read_pointers(buf: &[u8], block: usize, endian: Endian) -> Option<Pointers>
    ensures { option_map pointers_of result ≡ read (pointers (order_of endian) buf.now block) }
{
    let first = checked_add(block, TABLE_POINTERS)?;
    let colors = read_i32(buf, first, endian).ok()?;
    let names = read_i32(buf, first + 4, endian).ok()?;
    Some(Pointers { colors, names })
}

// The record at a place.
#[tactic(auto, unfolding(lsm_format::specs::Channels::name_record), using(lsm_format::proofs::Told::back, lsm_format::proofs::Channels::signed_there, crate::proofs::Read::ok_read, crate::proofs::Read::record_with))]
fn name_record(buf: &[u8], place: usize, endian: Endian) -> Option<Record>
    ensures is { option_map span_of result ≡ name_record (order_of endian) buf.now place }
    ensures inside { IfSome result (λ r. r.start + r.len ≤ length buf.now) }
{
    let n = read_i32(buf, place, endian).ok()?;
    let len = counted(n)?;
    let start = place + 4;
    let rest = buf.len() - start;
    if rest < len {
        return None;
    }
    Some(Record { start, len })
}

// The record of a channel, from the place of the first: each is read once. A record takes at least four bytes, so that the
// file's end is met long before a large channel number.
#[tactic(auto, using(crate::proofs::Read::record_turn, lsm_format::proofs::Channels::record_ends, lsm_format::proofs::Channels::record_last))]
fn find_record(buf: &[u8], first: usize, endian: Endian, channel: usize) -> Option<Record>
    ensures is { option_map span_of result ≡ record_of (order_of endian) buf.now first channel }
    ensures inside { IfSome result (λ r. r.start + r.len ≤ length buf.now) }
{
    let mut place = first;
    for _ in 0..channel {
        let record = name_record(buf, place, endian)?;
        place = record.start + record.len;
    }
    name_record(buf, place, endian)
}

// The bytes of a channel's name, if it has one that is given. Only this channel's name is held to the longest.
#[tactic(auto, using(lsm_format::proofs::Told::back, crate::proofs::Read::name_with))]
pub(crate) fn find_name(
    buf: &[u8],
    block: usize,
    names: i32,
    endian: Endian,
    channel: usize,
) -> Option<&[u8]>
    ensures { option_map (λ name. name.now) result ≡ option_map (bytes_in buf.now) (name_span (order_of endian) buf.now block names channel) }
{
    let table = positive(names)?;
    let first = checked_add(block, table)?;
    let record = find_record(buf, first, endian, channel)?;
    if MAX_NAME_BYTES < record.len {
        return None;
    }
    Some(&buf[record.start..record.start + record.len])
}
