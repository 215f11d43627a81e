// The byte readers, sizes, rectangles and scenes. A line has the numbers that say what is asked, and then the answer.
ghost use Rattle.std.specs.Prelude.{◌≡◌, true, ◌+◌, ◌-◌, ◌≤◌, ◌<◌, length, pos, negsuc, IfSome};
ghost use Rattle.lsm_replay.specs.Told.{signed_told};

use crate::answer::{refused, told};
use lsm_bytes::{read_f64_bits, read_i32, read_u8, read_u16, read_u32};
use lsm_format::error::Refusal;
use lsm_format::types::{Coordinate, DType, Dims5, Endian, checked_region};
use lsm_positions::LsmLayout;
use vectors::asked::{coordinate, rectangle};

// A line's numbers stand for these, as the recorder wrote them. No number is refused, so there is no `TryFrom`; and a `From` would have to stand with
// the types, which know nothing of the lists.

pub fn order(n: usize) -> Endian
    ensures { (n ≡ 0 → result ≡ Endian.Little) × (0 < n → result ≡ Endian.Big) }
{
    if n == 0 { Endian::Little } else { Endian::Big }
}

fn kind(n: usize) -> DType
    ensures value { (n ≡ 0 → result ≡ DType.U8) × (n ≡ 1 → result ≡ DType.U16) }
    ensures value_2 { (n ≡ 2 → result ≡ DType.I16) × (2 < n → result ≡ DType.F32) }
{
    match n {
        0 => DType::U8,
        1 => DType::U16,
        2 => DType::I16,
        _ => DType::F32,
    }
}

// An i32 as the lists have it: the u32 of the same bits.
pub fn bits_of(n: i32) -> usize
    ensures value { result ≡ signed_told n }
    ensures small { result < 4294967296 }
{
    n.cast_unsigned() as usize
}

fn signed(n: usize) -> i32
    ensures low { n < 2147483648 → result ≡ pos n }
    ensures high { 2147483648 ≤ n → n < 4294967296 → result ≡ negsuc (4294967295 - n) }
{
    ((n % 0x1_0000_0000) as u32).cast_signed()
}

// What stands at a place of a buffer: the type, the order and the place.
pub fn read(numbers: &[usize], bytes: &[u8]) -> bool
    ensures { result ≡ true → 4 ≤ length numbers.now }
{
    let [what, e, off, said @ ..] = numbers else {
        return false;
    };
    let off = *off;
    let e = order(*e);
    let number = match *what {
        0 => read_u8(bytes, off).map(usize::from),
        1 => read_u16(bytes, off, e).map(usize::from),
        2 => read_u32(bytes, off, e).map(|n| n as usize),
        3 => read_i32(bytes, off, e).map(bits_of),
        _ => read_f64_bits(bytes, off, e).map(|n| n as usize),
    };
    told(said, number)
}

// The bytes of a picture: whether without the limit, the size and the kind.
pub fn size(numbers: &[usize]) -> bool
    ensures { result ≡ true → 4 ≤ length numbers.now }
{
    let [unlimited, x, y, dtype, said @ ..] = numbers else {
        return false;
    };
    let dims = Dims5 {
        t: 1,
        c: 1,
        z: 1,
        y: *y,
        x: *x,
    };
    let dtype = kind(*dtype);
    let bytes = if *unlimited == 0 {
        dims.checked_plane_bytes(dtype)
    } else {
        dims.plane_bytes_no_ceiling(dtype)
    };
    told(said, bytes)
}

// The dimensions that numbers begin with, and the numbers behind them.
fn dims(numbers: &[usize]) -> Option<(Dims5, &[usize])>
    ensures { IfSome result (λ r. length numbers.now ≡ 5 + length r.1.now) }
{
    let ([t, c, z, y, x], rest) = numbers.split_first_chunk::<5>()?;
    let dims = Dims5 {
        t: *t,
        c: *c,
        z: *z,
        y: *y,
        x: *x,
    };
    Some((dims, rest))
}

// A coordinate and a rectangle of a picture.
pub fn region(numbers: &[usize]) -> bool
    ensures { result ≡ true → 13 ≤ length numbers.now }
{
    let Some((dims, rest)) = dims(numbers) else {
        return false;
    };
    let Some((co, rest)) = coordinate(rest) else {
        return false;
    };
    let Some((rect, said)) = rectangle(rest) else {
        return false;
    };
    match checked_region(dims, co, rect) {
        Ok(()) => said == [0].as_slice(),
        Err(r) => refused(said, r),
    }
}

// Whether a rectangle is empty.
pub fn empty(numbers: &[usize]) -> bool
    ensures { result ≡ true → 4 ≤ length numbers.now }
{
    let Some((rect, said)) = rectangle(numbers) else {
        return false;
    };
    told(said, Ok(usize::from(rect.is_empty())))
}

// The layout that numbers begin with, or why there is none, and the numbers behind them.
fn layout(numbers: &[usize]) -> Option<(Result<LsmLayout, Refusal>, &[usize])>
    ensures { IfSome result (λ r. length numbers.now ≡ 4 + length r.1.now) }
{
    let ([p, m, t, z], rest) = numbers.split_first_chunk::<4>()?;
    Some((LsmLayout::new(signed(*p), signed(*m), *t, *z), rest))
}

// How many of what is asked for a layout has.
fn count<F: FnOnce(LsmLayout) -> Result<usize, Refusal>>(numbers: &[usize], ask: F) -> bool
    requires { F.IsAlwaysCallable ask }
    ensures { result ≡ true → 4 ≤ length numbers.now }
{
    let Some((layout, said)) = layout(numbers) else {
        return false;
    };
    told(said, layout.and_then(ask))
}

// The scenes of a layout.
pub fn scenes(numbers: &[usize]) -> bool
    ensures { result ≡ true → 4 ≤ length numbers.now }
{
    count(numbers, |l| Ok(l.scene_count()))
}

// The pages of a layout.
pub fn pages(numbers: &[usize]) -> bool
    ensures { result ≡ true → 4 ≤ length numbers.now }
{
    count(numbers, LsmLayout::expected_pages)
}

// The page of a scene's time point and plane. No page is 6 here, as whoever asks makes of it.
pub fn page(numbers: &[usize]) -> bool
    ensures { result ≡ true → 7 ≤ length numbers.now }
{
    let Some((layout, rest)) = layout(numbers) else {
        return false;
    };
    let [scene, t, z, said @ ..] = rest else {
        return false;
    };
    let co = Coordinate {
        scene: *scene,
        t: *t,
        c: 0,
        z: *z,
    };
    match layout {
        Ok(l) => match l.page_index(co) {
            Some(n) => told(said, Ok(n)),
            None => said == [6].as_slice(),
        },
        Err(r) => refused(said, r),
    }
}
