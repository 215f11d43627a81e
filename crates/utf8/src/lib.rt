// Lossy decoding of UTF-8 into lent memory.
#![tactic(auto)]

ghost use Rattle.std.specs.Prelude.{◌≡◌, ◌-◌, ◌^◌, ◌≤◌, min, length, option_map};
ghost use Rattle.std.specs.Iterator.{at_most};
ghost use Rattle.lsm_format.specs.Code.{answer_of};
ghost use Rattle.lsm_format.specs.Utf8.{lossy, well_formed, followers_in, matched, piece, after};
ghost use Rattle.utf8.specs.Code.{Decoding};
ghost use Rattle.utf8.specs.Pieces.{piece_of, texts_steps};

use lsm_format::error::Refusal;

// U+FFFD.
const REPLACEMENT: &[u8] = b"\xEF\xBF\xBD";

// The range of a byte that follows, in every row but for the first follower of four rows.
const TAIL: (u8, u8) = (0x80, 0xBF);

// What stands at a place, with the number of bytes after its first.
#[derive(Clone, Copy)]
enum Piece {
    Sequence(usize),
    Subpart(usize),
}

// The ranges of the bytes that follow a first byte, by its row of Unicode's Table 3-7.
fn followers(first: u8) -> Option<&'static [(u8, u8)]>
    ensures { option_map (λ rs. rs.now) result ≡ followers_in well_formed first }
{
    match first {
        0x00..=0x7F => Some(&[]),
        0xC2..=0xDF => Some(&[TAIL]),
        0xE0 => Some(&[(0xA0, 0xBF), TAIL]),
        0xE1..=0xEC => Some(&[TAIL, TAIL]),
        0xED => Some(&[(0x80, 0x9F), TAIL]),
        0xEE..=0xEF => Some(&[TAIL, TAIL]),
        0xF0 => Some(&[(0x90, 0xBF), TAIL, TAIL]),
        0xF1..=0xF3 => Some(&[TAIL, TAIL, TAIL]),
        0xF4 => Some(&[(0x80, 0x8F), TAIL, TAIL]),
        _ => None,
    }
}

// How many of the bytes lie in their ranges, one after another.
fn matching(ranges: &[(u8, u8)], bytes: &[u8]) -> usize
    ensures is { result ≡ matched ranges.now bytes.now }
    ensures inside { result ≤ length bytes.now }
{
    ranges
        .iter()
        .zip(bytes)
        .take_while(|(range, b)| range.0 <= **b && **b <= range.1)
        .count()
}

// What stands at a first byte, with these after it.
#[tactic(auto, unfolding(lsm_format::specs::Utf8::piece))]
fn piece_at(first: u8, others: &[u8]) -> Piece
    ensures is { piece_of result ≡ piece first others.now }
    ensures inside { after (piece_of result) ≤ length others.now }
{
    let Some(ranges) = followers(first) else {
        return Piece::Subpart(0);
    };
    let n = matching(ranges, others);
    if n == ranges.len() {
        Piece::Sequence(n)
    } else {
        Piece::Subpart(n)
    }
}

// The text that bytes decode to, piece by piece. std's `utf8_chunks` goes by what its encoder makes; here the rows of Table 3-7 stand
// one by one, as in the definition.
#[derive(Drop)]
struct Texts<'a> {
    rest: &'a [u8],
}

impl<'a> Texts<'a> {
    fn new(s: &'a [u8]) -> Texts<'a>
        ensures { result.rest.now ≡ s.now }
    {
        Texts { rest: s }
    }
}

impl<'a> Iterator for Texts<'a> {
    type Item = &'a [u8];

    ghost next_gives = { texts_steps };

    ghost remaining = { λ s. at_most (length s.rest.now) };

    #[inline(always)] // so that the count and the writing have a loop of their own each
    #[tactic(auto, using(crate::proofs::Text::lossy_sequence, crate::proofs::Text::lossy_subpart))]
    fn next(&mut self) -> Option<&'a [u8]> {
        let (first, others) = self.rest.split_first()?;
        match piece_at(*first, others) {
            Piece::Sequence(n) => {
                let (text, rest) = self.rest.split_at(n + 1);
                self.rest = rest;
                Some(text)
            }
            Piece::Subpart(n) => {
                self.rest = &others[n..];
                Some(REPLACEMENT)
            }
        }
    }
}

// The length of the text that the bytes decode to; 2^64 - 1 where it is longer than that.
#[tactic(auto, using(crate::proofs::Text::lossy_empty))]
pub fn lossy_length(s: &[u8]) -> usize
    ensures { result ≡ min (length (lossy s.now)) (2 ^ 64 - 1) }
{
    let mut total: usize = 0;
    for text in Texts::new(s) {
        total = total.saturating_add(text.len());
    }
    total
}

// Copies the text of a piece: so few bytes that a call of C's memcpy would take longer.
#[tactic(auto, using(lsm_format::proofs::Lists::take_store, lsm_format::proofs::Lists::take_full))]
fn copy_piece(text: &[u8], out: &mut [u8])
    requires { length out.old ≡ length text.now }
    ensures { out.new ≡ text.now }
{
    for (i, byte) in out.iter_mut().enumerate() {
        *byte = text[i];
    }
}

// Fills `out` with the text. Each piece is put at its place: of what is left of `out`, split off in a loop, nothing would be known at the end.
#[tactic(auto, using(crate::proofs::Text::lossy_empty, crate::proofs::Text::joined_length, crate::proofs::Text::write_turn, crate::proofs::Text::write_done))]
fn write(s: &[u8], out: &mut [u8])
    requires { length out.old ≡ length (lossy s.now) }
    ensures { out.new ≡ lossy s.now }
{
    let mut n = 0;
    for text in Texts::new(s) {
        let end = n + text.len();
        copy_piece(text, &mut out[n..end]);
        n = end;
    }
}

// Decodes into `out`. Where the text has no room there, nothing is written.
#[tactic(auto, using(lsm_format::proofs::Lent::lend_short, lsm_format::proofs::Lent::lend_room, lsm_format::proofs::Lent::filled_short, lsm_format::proofs::Lent::filled_room))]
pub fn decode_lossy(s: &[u8], out: &mut [u8]) -> Result<usize, Refusal>
    ensures { Decoding s.now out.old out.new (answer_of result) }
{
    let needed = lossy_length(s);
    if out.len() < needed {
        return Err(Refusal::TooShort { needed });
    }
    write(s, &mut out[..needed]);
    Ok(needed)
}
