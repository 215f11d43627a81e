// The lines of a list of recorded answers. A line is a letter, then hexadecimal numbers with a space before each, then a colon and
// bytes where the case has any. Two digits are a byte, and `*NNBB` is NN bytes BB.
ghost use Rattle.std.specs.Prelude.{◌≡◌, ◌++◌, ◌+◌, ◌<◌, ◌≤◌, length, replicate, option_map, IfSome, OnSome};
ghost use Rattle.std.specs.Borrow.{sem};
ghost use Rattle.std.specs.Io.BufRead.{Rests};
ghost use Rattle.arrayvec.specs.ArrayVec.{array_vec_len};
ghost use Rattle.vectors.specs.Code.{says_of, line_of};
ghost use Rattle.vectors.specs.Lines.{pair, run, fitting, bytes, tail, said, line};

use crate::numbers::{digit, numbers};
use arrayvec::ArrayVec;

// The byte that a text begins with, and the text behind it.
#[tactic(auto, unfolding(crate::specs::Lines::pair))]
fn pair(text: &[u8]) -> Option<(u8, &[u8])>
    ensures { option_map (λ r. (r.0, r.1.now)) result ≡ pair text.now }
{
    let ([high, low], rest) = text.split_first_chunk::<2>()?;
    Some((digit(*high)? * 16 + digit(*low)?, rest))
}

// A byte as often as it stands one behind the other.
#[derive(Clone, Copy)]
struct Repeated {
    times: u8,
    byte: u8,
}

// The run that a text begins with, and the text behind it.
#[tactic(auto, using(crate::proofs::Digits::behind_is, crate::proofs::Digits::behind_not), unfolding(crate::specs::Lines::run))]
fn run(text: &[u8]) -> Option<(Repeated, &[u8])>
    ensures { option_map (λ r. (replicate r.0.times r.0.byte, r.1.now)) result ≡ run text.now }
{
    match text.strip_prefix(b"*") {
        Some(rest) => {
            let (times, rest) = pair(rest)?;
            let (byte, rest) = pair(rest)?;
            Some((Repeated { times, byte }, rest))
        }
        None => {
            let (byte, rest) = pair(text)?;
            Some((Repeated { times: 1, byte }, rest))
        }
    }
}

// The same, where it has a byte and there is room for it.
fn fitting(text: &[u8], room: usize) -> Option<(Repeated, &[u8])>
    ensures { option_map (λ r. (replicate r.0.times r.0.byte, r.1.now)) result ≡ fitting room (run text.now) }
{
    let (run, rest) = run(text)?;
    if run.times == 0 || room < usize::from(run.times) {
        return None;
    }
    Some((run, rest))
}

// Puts a run behind bytes that have room for it, a longer one at a stroke.
#[tactic(auto, using(crate::proofs::Runs::run_front))]
fn push_run<const N: usize>(bytes: &mut ArrayVec<u8, N>, run: Repeated)
    requires { array_vec_len bytes.old + run.times ≤ N }
    ensures { bytes.new.items ≡ bytes.old.items ++ replicate run.times run.byte }
{
    if run.times == 1 {
        bytes.push(run.byte);
    } else {
        let longest = [run.byte; 255];
        let _ = bytes.try_extend_from_slice(&longest[..usize::from(run.times)]);
    }
}

// The bytes that a text begins with, run behind run as long as there is room, in lent memory, and the text behind them. What was in it
// before is gone.
#[tactic(auto, using(crate::proofs::Runs::bytes_all, crate::proofs::Runs::bytes_more, crate::proofs::Left::all_left))]
fn bytes_into<'a, const N: usize>(text: &'a [u8], lent: &mut ArrayVec<u8, N>) -> &'a [u8]
    ensures value { (lent.new.items, result.now) ≡ bytes N text.now }
    ensures behind { length result.now ≤ length text.now }
{
    lent.clear();
    let mut rest = text;
    while let Some((run, after)) = fitting(rest, lent.remaining_capacity()) {
        push_run(lent, run);
        rest = after;
    }
    rest
}

// The same, in memory of its own.
pub fn bytes<const N: usize>(text: &[u8]) -> (ArrayVec<u8, N>, &[u8])
    ensures value { (result.0.items, result.1.now) ≡ bytes N text.now }
    ensures behind { length result.1.now ≤ length text.now }
{
    let mut bytes = ArrayVec::new();
    let rest = bytes_into(text, &mut bytes);
    (bytes, rest)
}

// The bytes behind a colon, in lent memory; none where there is no colon.
#[tactic(auto, using(crate::proofs::Digits::behind_is, crate::proofs::Digits::behind_not), unfolding(crate::specs::Lines::tail))]
fn tail<'a, const N: usize>(text: &'a [u8], lent: &mut ArrayVec<u8, N>) -> &'a [u8]
    ensures { (lent.new.items, result.now) ≡ tail N text.now }
{
    match text.strip_prefix(b":") {
        Some(rest) => bytes_into(rest, lent),
        None => {
            lent.clear();
            text
        }
    }
}

// Memory for what a line says: its numbers and its bytes.
#[derive(Drop)]
struct Said<const N: usize, const M: usize> {
    numbers: ArrayVec<usize, N>,
    bytes: ArrayVec<u8, M>,
}

impl<const N: usize, const M: usize> Said<N, M> {
    fn parts(&self) -> (&[usize], &[u8])
        ensures value { (result.0.now ≡ self.now.numbers.items) × (result.1.now ≡ self.now.bytes.items) }
        ensures room { (length result.0.now ≤ N) × (length result.1.now ≤ M) }
    {
        (self.numbers.as_slice(), self.bytes.as_slice())
    }
}

// Reads into lent memory what the line says whose letter stands before a text, and gives the text behind the line. None where it hasn't the
// form, or has no room.
#[tactic(auto, using(crate::proofs::Digits::behind_is, crate::proofs::Digits::behind_not), unfolding(crate::specs::Lines::said))]
fn says<'a, const N: usize, const M: usize>(
    text: &'a [u8],
    lent: &mut Said<N, M>,
) -> Option<&'a [u8]>
    ensures { option_map (λ rest. (says_of lent.new, rest.now)) result ≡ said N M text.now }
{
    let rest = numbers(text, &mut lent.numbers);
    let rest = tail(rest, &mut lent.bytes);
    rest.strip_prefix(b"\n")
}

// A line: its letter, and its numbers and bytes, if it has the form.
#[derive(Clone, Copy)]
pub struct Line<'b> {
    pub letter: u8,
    pub said: Option<(&'b [usize], &'b [u8])>,
}

// The lines of a list, with room for so many numbers and bytes. One that hasn't the form ends the list. The list keeps the memory that a line is
// read into, so that it is no iterator: what an iterator gives can't borrow from it.
#[derive(Drop)]
pub struct Lines<'a, const N: usize, const M: usize> {
    text: &'a [u8],
    said: Said<N, M>,
}

impl<'a, const N: usize, const M: usize> Lines<'a, N, M> {
    ghost use Rattle.vectors.specs.Reading.{lines_row};

    pub fn new(text: &'a [u8]) -> Lines<'a, N, M>
        ensures { result.text.now ≡ text.now }
    {
        Lines {
            text,
            said: Said {
                numbers: ArrayVec::new(),
                bytes: ArrayVec::new(),
            },
        }
    }

    // The next line, in the list's memory, with no more numbers and bytes than there is room for. It has a letter at least, so that less text
    // is left.
    #[tactic(auto, using(crate::proofs::Left::line_left), unfolding(crate::specs::Lines::line))]
    pub fn read(&mut self) -> Option<Line<'_>>
        ensures value { option_map line_of result ≡ (line N M self.old.text.now).0 }
        ensures room { IfSome result (λ l. IfSome l.said (λ s. (length s.0.now ≤ N) × (length s.1.now ≤ M))) }
        ensures* after { sem 𝓛 (Rests (lines_row N.row M.row) self.entry (λ new.
            (new.text.now ≡ (line N M self.old.text.now).1) × OnSome result (length new.text.now < length self.old.text.now))) }
    {
        let (letter, text) = self.text.split_first()?;
        let letter = *letter;
        match says(text, &mut self.said) {
            Some(rest) => {
                self.text = rest;
                Some(Line {
                    letter,
                    said: Some(self.said.parts()),
                })
            }
            None => {
                self.text = &[];
                Some(Line { letter, said: None })
            }
        }
    }
}
