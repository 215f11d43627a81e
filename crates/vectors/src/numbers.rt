// Hexadecimal numbers of a list of recorded answers.
ghost use Rattle.std.specs.Prelude.{◌≡◌, ◌<◌, IfSome, option_map};
ghost use Rattle.vectors.specs.Numbers.{digit_of, with_digit, number, spaced, numbers};

use arrayvec::ArrayVec;

// The value of a hexadecimal digit. std's `to_digit` and the kit's `hex` take capital letters as well, which no list has.
#[tactic(auto, unfolding(crate::specs::Numbers::digit_of))]
pub(crate) fn digit(b: u8) -> Option<u8>
    ensures value { result ≡ digit_of b }
    ensures small { IfSome result (λ d. d < 16) }
{
    match b {
        b'0'..=b'9' => Some(b - b'0'),
        b'a'..=b'f' => Some(b - b'a' + 10),
        _ => None,
    }
}

// A number with a digit more behind it: none where the byte is no digit, or the number would pass 64 bits.
#[tactic(auto, unfolding(crate::specs::Numbers::with_digit))]
fn with_digit(value: usize, b: u8) -> Option<usize>
    ensures { result ≡ with_digit value b }
{
    let d = digit(b)?;
    value.checked_mul(16)?.checked_add(usize::from(d))
}

// The number that a text begins with, and the text behind it. A digit that would pass 64 bits ends it.
#[tactic(auto, unfolding(crate::specs::Numbers::number, crate::specs::Numbers::digits))]
fn number(text: &[u8]) -> Option<(usize, &[u8])>
    ensures { option_map (λ r. (r.0, r.1.now)) result ≡ number text.now }
{
    let (first, mut rest) = text.split_first()?;
    let mut value = with_digit(0, *first)?;
    while let Some((b, after)) = rest.split_first() {
        let Some(more) = with_digit(value, *b) else {
            break;
        };
        value = more;
        rest = after;
    }
    Some((value, rest))
}

// The number behind a space.
#[tactic(auto, using(crate::proofs::Digits::behind_is, crate::proofs::Digits::behind_not), unfolding(crate::specs::Numbers::spaced))]
fn spaced(text: &[u8]) -> Option<(usize, &[u8])>
    ensures { option_map (λ r. (r.0, r.1.now)) result ≡ spaced text.now }
{
    number(text.strip_prefix(b" ")?)
}

// The numbers that a text begins with, a space before each, as many as there is room for, in lent memory, and the text behind them. What
// was in it before is gone.
#[tactic(auto, using(crate::proofs::Digits::numbers_more), unfolding(crate::specs::Numbers::numbers))]
pub(crate) fn numbers<'a, const N: usize>(text: &'a [u8], lent: &mut ArrayVec<usize, N>) -> &'a [u8]
    ensures { (lent.new.items, result.now) ≡ numbers N text.now }
{
    lent.clear();
    let mut rest = text;
    while !lent.is_full() {
        let Some((value, after)) = spaced(rest) else {
            break;
        };
        lent.push(value);
        rest = after;
    }
    rest
}
