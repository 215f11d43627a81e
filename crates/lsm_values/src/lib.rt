// The values of a directory's entries: their types, where they stand, single numbers and strip arrays.
#![tactic(auto)]

ghost use Rattle.std.specs.Prelude.{ℕ, ◌≡◌, ◌+◌, ◌-◌, ◌*◌, ◌^◌, ◌≤◌, ◌<◌, not, ◌&&◌, length, get_or, slice_get, None, Some, option_map};
ghost use Rattle.lsm_format.specs.Answer.{need, negative_value};
ghost use Rattle.lsm_format.specs.Code.{order_of, answer_of, answer_by};
ghost use Rattle.lsm_format.specs.Numbers.{number_at};
ghost use Rattle.lsm_format.specs.Words.{word};
ghost use Rattle.lsm_format.specs.Directory.{type_size, integer_size, is_signed, is_negative, value_at, all_equal, value_place, entry_values, scalar_values, scalar, array};
ghost use Rattle.lsm_values.specs.Values.{unsigned_size, value_of_size, first_number, signed_size, array_at, some_negative};
ghost use Rattle.lsm_values.specs.Code.{bytes_of, sign_place, entry_of, values_of};

use lsm_bytes::{read_u8, read_u16, read_u32};
use lsm_format::checked::{checked_add, checked_mul};
use lsm_format::error::Refusal;
use lsm_format::types::Endian;

// The bytes of a number.
#[derive(Clone, Copy)]
pub enum Width {
    One,
    Two,
    Four,
}

impl Width {
    // How many they are.
    fn bytes(self) -> usize
        ensures { (result ≡ bytes_of self) × (result ≤ 4) × (0 < result) }
    {
        match self {
            Width::One => 1,
            Width::Two => 2,
            Width::Four => 4,
        }
    }

    // The least of them with the top bit set.
    fn top_bit(self) -> u32
        ensures { result ≡ 2 ^ (8 * bytes_of self - 1) }
    {
        match self {
            Width::One => 0x80,
            Width::Two => 0x8000,
            Width::Four => 0x8000_0000,
        }
    }

    // Which of its bytes has the top bit.
    fn sign_place(self, e: Endian) -> usize
        ensures { (result ≡ sign_place self (order_of e)) × (result < bytes_of self) }
    {
        match e {
            Endian::Little => self.bytes() - 1,
            Endian::Big => 0,
        }
    }
}

// What an entry says of its values: their type, how many they are, and where its four bytes for values stand. The buffer and the order stay
// arguments beside it, as in lsm_bytes.
#[derive(Clone, Copy)]
pub struct Entry {
    pub ty: u16,
    pub count: u32,
    pub off: usize,
}

// The bytes of a TIFF type; 0 for a code that is none, which is the form that the project asks for.
#[tactic(auto, unfolding(lsm_format::specs::Directory::type_size))]
pub fn tiff_type_size(ty: u16) -> usize
    ensures { result ≡ type_size ty }
{
    match ty {
        1 | 2 | 6 | 7 => 1,
        3 | 8 => 2,
        4 | 9 | 11 => 4,
        5 | 10 | 12 => 8,
        _ => 0,
    }
}

// How a TIFF type is read as a number, if it is.
#[tactic(auto, unfolding(lsm_format::specs::Directory::type_size, lsm_format::specs::Directory::integer_size))]
pub fn integer_width(ty: u16) -> Option<Width>
    ensures { option_map bytes_of result ≡ integer_size ty }
{
    match ty {
        1 | 6 | 7 => Some(Width::One),
        3 | 8 => Some(Width::Two),
        4 | 9 | 11 => Some(Width::Four),
        _ => None,
    }
}

// The same of a type whose numbers are never below 0. Most files have no others, so these are read without a look at signs.
#[tactic(auto, unfolding(lsm_format::specs::Directory::type_size, lsm_format::specs::Directory::integer_size))]
fn unsigned_width(ty: u16) -> Option<Width>
    ensures { option_map bytes_of result ≡ unsigned_size ty }
{
    match ty {
        1 | 7 => Some(Width::One),
        3 => Some(Width::Two),
        4 | 11 => Some(Width::Four),
        _ => None,
    }
}

// Whether a TIFF type is read as two's complement.
fn is_signed(ty: u16) -> bool
    ensures { result ≡ is_signed ty }
{
    matches!(ty, 6 | 8 | 9)
}

// A number with its top bit set is below 0, if its type is read so.
fn not_negative(signed: bool, width: Width, v: u32) -> Result<(), Refusal>
    ensures { answer_of result ≡ need negative_value (not (signed && is_negative (bytes_of width) v)) }
{
    if signed && width.top_bit() <= v {
        return Err(Refusal::NegativeValue);
    }
    Ok(())
}

// The number of one, two or four bytes at a place.
#[tactic(auto, using(lsm_format::proofs::Numbers::number_byte))]
pub fn read_number(buf: &[u8], off: usize, width: Width, e: Endian) -> Result<u32, Refusal>
    ensures { answer_of result ≡ number_at (bytes_of width) (order_of e) buf.now off }
{
    match width {
        Width::One => Ok(u32::from(read_u8(buf, off)?)),
        Width::Two => Ok(u32::from(read_u16(buf, off, e)?)),
        Width::Four => read_u32(buf, off, e),
    }
}

// Where an entry's values stand: in the entry where they fit into four bytes, otherwise at the offset that it holds.
#[tactic(auto, unfolding(lsm_format::specs::Directory::value_place, lsm_format::specs::Answer::bind))]
fn value_place(buf: &[u8], size: usize, entry: Entry, e: Endian) -> Result<usize, Refusal>
    requires { size ≤ 8 }
    ensures { answer_of result ≡ value_place (order_of e) buf.now size entry.count entry.off }
{
    if size * (entry.count as usize) <= 4 {
        return Ok(entry.off);
    }
    let place = read_u32(buf, entry.off, e)?;
    Ok(place as usize)
}

// The values of an entry: where the first stands, their type, and how many they are.
#[derive(Clone, Copy)]
pub struct Values {
    pub place: usize,
    pub count: usize,
    pub ty: u16,
}

// The values of an entry whose type has a size.
#[tactic(auto, unfolding(lsm_format::specs::Directory::entry_values, lsm_format::specs::Answer::bind), using(lsm_format::proofs::Directory::type_size_small))]
fn entry_values(buf: &[u8], entry: Entry, e: Endian) -> Result<Values, Refusal>
    ensures { answer_by entry_of result ≡ entry_values (order_of e) buf.now entry.ty entry.count entry.off }
{
    let size = tiff_type_size(entry.ty);
    if size == 0 {
        return Err(Refusal::Decode);
    }
    Ok(Values {
        place: value_place(buf, size, entry, e)?,
        count: entry.count as usize,
        ty: entry.ty,
    })
}

// The values of an entry that has one at least.
#[tactic(auto, unfolding(lsm_format::specs::Directory::scalar_values, lsm_format::specs::Answer::bind))]
pub fn scalar_values(buf: &[u8], entry: Entry, e: Endian) -> Result<Values, Refusal>
    ensures { answer_by entry_of result ≡ scalar_values (order_of e) buf.now entry.ty entry.count entry.off }
{
    let values = entry_values(buf, entry, e)?;
    if values.count == 0 {
        return Err(Refusal::Decode);
    }
    Ok(values)
}

// The first number of an entry, as so many bytes.
#[tactic(auto, unfolding(crate::specs::Values::first_number, lsm_format::specs::Answer::bind))]
fn first_number(buf: &[u8], width: Width, entry: Entry, e: Endian) -> Result<u32, Refusal>
    ensures { answer_of result ≡ first_number (bytes_of width) (order_of e) buf.now entry.count entry.off }
{
    if entry.count == 0 {
        return Err(Refusal::Decode);
    }
    let place = value_place(buf, width.bytes(), entry, e)?;
    read_number(buf, place, width, e)
}

// An entry whose type is no number is refused, whatever its size and count; but the place of its values is read before that.
#[tactic(auto, unfolding(lsm_format::specs::Answer::bind), using(crate::proofs::Laws::scalar_asked, lsm_format::proofs::Directory::type_size_small))]
fn no_number(buf: &[u8], entry: Entry, e: Endian) -> Result<u32, Refusal>
    ensures { integer_size entry.ty ≡ None → answer_of result ≡ scalar (order_of e) buf.now entry.ty entry.count entry.off }
{
    value_place(buf, tiff_type_size(entry.ty), entry, e)?;
    Err(Refusal::Decode)
}

// The first value of an entry whose type may be signed, or no number.
#[cold] // so that the common way has the question alone
#[tactic(auto, unfolding(lsm_format::specs::Answer::bind), using(crate::proofs::Laws::scalar_asked))]
fn signed_scalar(buf: &[u8], entry: Entry, e: Endian) -> Result<u32, Refusal>
    ensures { answer_of result ≡ scalar (order_of e) buf.now entry.ty entry.count entry.off }
{
    let Some(width) = integer_width(entry.ty) else {
        return no_number(buf, entry, e);
    };
    let v = first_number(buf, width, entry, e)?;
    not_negative(is_signed(entry.ty), width, v)?;
    Ok(v)
}

// The first value of an entry. How its type is read as a number says its size too, and is asked once.
#[tactic(auto, using(crate::proofs::Laws::scalar_unsigned))]
pub fn read_scalar(buf: &[u8], entry: Entry, e: Endian) -> Result<u32, Refusal>
    ensures { answer_of result ≡ scalar (order_of e) buf.now entry.ty entry.count entry.off }
{
    match unsigned_width(entry.ty) {
        Some(width) => first_number(buf, width, entry, e),
        None => signed_scalar(buf, entry, e),
    }
}

// One value of a type that may be signed, or no number.
#[cold] // as signed_scalar
#[tactic(auto, unfolding(lsm_format::specs::Directory::value_at, lsm_format::specs::Answer::bind))]
fn signed_value(buf: &[u8], ty: u16, off: usize, e: Endian) -> Result<u32, Refusal>
    ensures { answer_of result ≡ value_at ty (order_of e) buf.now off }
{
    let width = integer_width(ty).ok_or(Refusal::Decode)?;
    let v = read_number(buf, off, width, e)?;
    not_negative(is_signed(ty), width, v)?;
    Ok(v)
}

// One value of a type at a place.
#[tactic(auto, using(crate::proofs::Laws::value_unsigned))]
pub fn value_at(buf: &[u8], ty: u16, off: usize, e: Endian) -> Result<u32, Refusal>
    ensures { answer_of result ≡ value_at ty (order_of e) buf.now off }
{
    match unsigned_width(ty) {
        Some(width) => read_number(buf, off, width, e),
        None => signed_value(buf, ty, off, e),
    }
}

// An array in the file: `count` numbers from a place on.
#[derive(Clone, Copy)]
pub struct Array {
    pub place: usize,
    pub count: usize,
    pub width: Width,
}

impl Array {
    // The array that has no values.
    pub const EMPTY: Array = Array {
        place: 0,
        count: 0,
        width: Width::One,
    };
}

// The most strips of a page.
const MAX_STRIP_COUNT: usize = 100_000;

// Whether one of n numbers in the file has its top bit set: one of their sign bytes then has. A plain loop over these bytes: an array may be a
// long one, and a file may name it many times.
#[inline(always)] // so that each call below has a loop for its width
#[tactic(auto, using(crate::proofs::Signs::sign_inside))]
fn top_bit_among(buf: &[u8], place: usize, n: usize, width: Width, e: Endian) -> bool
    requires { place + bytes_of width * n ≤ length buf.now }
    ensures { result ≡ some_negative n (bytes_of width) (order_of e) buf.now place }
{
    let step = width.bytes();
    let sign = width.sign_place(e);
    let mut top = 0u8;
    for i in 0..n {
        top = top.max(buf[place + step * i + sign]);
    }
    0x80 <= top
}

// The same of any width.
fn some_negative(buf: &[u8], place: usize, n: usize, width: Width, e: Endian) -> bool
    requires { place + bytes_of width * n ≤ length buf.now }
    ensures { result ≡ some_negative n (bytes_of width) (order_of e) buf.now place }
{
    match width {
        Width::One => top_bit_among(buf, place, n, Width::One, e),
        Width::Two => top_bit_among(buf, place, n, Width::Two, e),
        Width::Four => top_bit_among(buf, place, n, Width::Four, e),
    }
}

// How an array's values are read as numbers, if their type may be signed. A value below 0 is refused where it stands before the first that passes
// the end of the file, for which the array would be refused otherwise: so those in the file are looked at, each of them once. Of an array that
// begins past the end there are none.
#[cold] // as signed_scalar
#[tactic(auto, unfolding(crate::specs::Values::signed_size, lsm_format::specs::Answer::bind), using(crate::proofs::Signs::there_all, crate::proofs::Signs::there_inside, crate::proofs::Signs::none_outside))]
fn signed_width(buf: &[u8], values: Values, e: Endian) -> Result<Width, Refusal>
    ensures { answer_by bytes_of result ≡ signed_size (order_of e) buf.now values.ty values.count values.place }
{
    let Values { place, count, ty } = values;
    let width = integer_width(ty).ok_or(Refusal::Decode)?;
    if !is_signed(ty) || buf.len() < place {
        return Ok(width);
    }
    let there = (buf.len() - place) / width.bytes();
    if some_negative(buf, place, count.min(there), width, e) {
        return Err(Refusal::NegativeValue);
    }
    Ok(width)
}

// The same of every type.
#[tactic(auto, using(crate::proofs::Laws::size_unsigned))]
fn array_width(buf: &[u8], values: Values, e: Endian) -> Result<Width, Refusal>
    ensures { answer_by bytes_of result ≡ signed_size (order_of e) buf.now values.ty values.count values.place }
{
    match unsigned_width(values.ty) {
        Some(width) => Ok(width),
        None => signed_width(buf, values, e),
    }
}

// The strip array at a place. Unsigned values are not read one by one: all of them are in the file where the last byte is.
#[inline(always)] // as read_array
#[tactic(auto, unfolding(crate::specs::Values::values, lsm_format::specs::Answer::bind), using(crate::proofs::Laws::array_counted))]
fn array_at(buf: &[u8], values: Values, e: Endian) -> Result<Array, Refusal>
    ensures { answer_by (values_of (order_of e) buf.now) result ≡ array_at (order_of e) buf.now values.ty values.count values.place }
{
    let Values { place, count, .. } = values;
    if MAX_STRIP_COUNT < count {
        return Err(Refusal::Decode);
    }
    if count == 0 {
        return Ok(Array::EMPTY);
    }
    let width = array_width(buf, values, e)?;
    let rest = buf.get(place..).ok_or(Refusal::Parse)?;
    if rest.len() < width.bytes() * count {
        return Err(Refusal::Parse);
    }
    Ok(Array {
        place,
        count,
        width,
    })
}

// The strip array of an entry.
#[inline(always)] // a call for each array of each directory would take its answer through memory
#[tactic(auto, unfolding(lsm_format::specs::Answer::bind), using(crate::proofs::Laws::array_asked))]
pub fn read_array(buf: &[u8], entry: Entry, e: Endian) -> Result<Array, Refusal>
    ensures { answer_by (values_of (order_of e) buf.now) result ≡ array (order_of e) buf.now entry.ty entry.count entry.off }
{
    let values = entry_values(buf, entry, e)?;
    array_at(buf, values, e)
}

// Where value i of an array stands, if the machine has such a place.
#[tactic(auto, unfolding(lsm_format::specs::Words::word), using(std::proofs::lemmas::Bool::Decides::nat_tests))]
fn value_offset(a: Array, i: usize) -> Option<usize>
    ensures { result ≡ word (a.place + bytes_of a.width * i) }
{
    checked_add(a.place, checked_mul(a.width.bytes(), i)?)
}

// What stands where value i of an array would.
#[tactic(auto, unfolding(lsm_format::specs::Words::word), using(lsm_format::proofs::Numbers::number_past, std::proofs::lemmas::Bool::Decides::nat_tests))]
fn array_value(buf: &[u8], a: Array, i: usize, e: Endian) -> Result<u32, Refusal>
    ensures { answer_of result ≡ number_at (bytes_of a.width) (order_of e) buf.now (a.place + bytes_of a.width * i) }
{
    let Some(off) = value_offset(a, i) else {
        return Err(Refusal::Parse);
    };
    read_number(buf, off, a.width, e)
}

// Value i of an array, if it has so many. One that is not in the file is 0: a strip array that was read has none of that sort.
#[tactic(auto, unfolding(crate::specs::Values::or_nought), using(crate::proofs::Laws::value_none, crate::proofs::Laws::value_there))]
pub fn get_strip_value(buf: &[u8], a: Array, i: usize, e: Endian) -> Option<usize>
    ensures { result ≡ slice_get (values_of (order_of e) buf.now a) i }
{
    if a.count <= i {
        return None;
    }
    Some(array_value(buf, a, i, e).unwrap_or(0) as usize)
}

// The same; 0 where there is none.
#[tactic(auto, using(crate::proofs::Laws::value_or))]
pub fn strip_value(buf: &[u8], a: Array, i: usize, e: Endian) -> usize
    ensures { result ≡ get_or (values_of (order_of e) buf.now a) i 0 }
{
    get_strip_value(buf, a, i, e).unwrap_or(0)
}

// Value i of an array of a type with a sign or without one.
#[tactic(auto, unfolding(crate::specs::Values::value_of_size, lsm_format::specs::Answer::bind))]
fn entry_value(buf: &[u8], a: Array, signed: bool, i: usize, e: Endian) -> Result<u32, Refusal>
    ensures { answer_of result ≡ value_of_size signed (bytes_of a.width) (order_of e) buf.now (a.place + bytes_of a.width * i) }
{
    let v = array_value(buf, a, i, e)?;
    not_negative(signed, a.width, v)?;
    Ok(v)
}

// Holds the values of an array after the first against a number, each before the next is read.
#[inline(always)] // so that each call below has a loop for its width and its sign
#[tactic(auto, using(crate::proofs::Laws::equal_over))]
fn array_equal(buf: &[u8], a: Array, signed: bool, v: u32, e: Endian) -> Result<(), Refusal>
    ensures { (type : ℕ) → integer_size type ≡ Some (bytes_of a.width) → is_signed type ≡ signed → answer_of result ≡ all_equal (a.count - 1) v type (order_of e) buf.now (a.place + type_size type) }
{
    for i in 1..a.count {
        if entry_value(buf, a, signed, i, e)? != v {
            return Err(Refusal::UnevenBits);
        }
    }
    Ok(())
}

// The same of an entry's values.
#[inline(always)] // so that each call below has its loops
#[tactic(auto, using(crate::proofs::Laws::equal_no_number))]
fn equal_by(buf: &[u8], values: Values, signed: bool, v: u32, e: Endian) -> Result<(), Refusal>
    requires { 1 < values.count }
    ensures { is_signed values.ty ≡ signed → answer_of result ≡ all_equal (values.count - 1) v values.ty (order_of e) buf.now (values.place + type_size values.ty) }
{
    let Values { place, count, ty } = values;
    let of = |width| Array {
        place,
        count,
        width,
    };
    match integer_width(ty) {
        Some(Width::One) => array_equal(buf, of(Width::One), signed, v, e),
        Some(Width::Two) => array_equal(buf, of(Width::Two), signed, v, e),
        Some(Width::Four) => array_equal(buf, of(Width::Four), signed, v, e),
        None => Err(Refusal::Decode),
    }
}

// Holds the values of an entry after the first against a number.
#[tactic(auto, using(crate::proofs::Laws::equal_over))]
pub fn all_equal(buf: &[u8], values: Values, v: u32, e: Endian) -> Result<(), Refusal>
    ensures { answer_of result ≡ all_equal (values.count - 1) v values.ty (order_of e) buf.now (values.place + type_size values.ty) }
{
    if values.count <= 1 {
        return Ok(());
    }
    if is_signed(values.ty) {
        return equal_by(buf, values, true, v, e);
    }
    equal_by(buf, values, false, v, e)
}
