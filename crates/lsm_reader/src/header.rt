// The header of a file: its byte order.
ghost use Rattle.std.specs.Prelude.{◌≡◌};
ghost use Rattle.lsm_format.specs.Code.{order_of, answer_by};
ghost use Rattle.lsm_format.specs.Open.{order_mark, tiff_header};

use lsm_bytes::read_u16;
use lsm_format::error::Refusal;
use lsm_format::types::Endian;

// The byte order that the first two bytes name.
fn order_mark(a: u8, b: u8) -> Result<Endian, Refusal>
    ensures { answer_by order_of result ≡ order_mark a b }
{
    match (a, b) {
        (b'I', b'I') => Ok(Endian::Little),
        (b'M', b'M') => Ok(Endian::Big),
        _ => Err(Refusal::Parse),
    }
}

// The TIFF header: eight bytes, a known order and the magic 42.
#[tactic(auto, unfolding(lsm_format::specs::Open::tiff_header, lsm_format::specs::Answer::bind))]
pub(crate) fn read_tiff_header(buf: &[u8]) -> Result<Endian, Refusal>
    ensures { answer_by order_of result ≡ tiff_header buf.now }
{
    if buf.len() < 8 {
        return Err(Refusal::Parse);
    }
    let order = order_mark(buf[0], buf[1])?;
    if read_u16(buf, 2, order)? != 42 {
        return Err(Refusal::Parse);
    }
    Ok(order)
}
