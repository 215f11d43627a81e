// What is compared: words with what is lent, and lent memory with what was in it before.
ghost use Rattle.std.specs.Prelude.{◌≡◌, ℕ, true, ◌&&◌, ◌+◌, ◌-◌, ◌≤◌, length, drop};
ghost use Rattle.vectors.specs.Same.{same, kept, same_then_kept, same_result, itself, in_answer, same_answer};

// What lent words hold before a call.
pub const WORD: usize = 0xa5a5_a5a5_a5a5_a5a5;

// What lent bytes hold before a call. It is in no UTF-8 text by itself.
pub const BYTE: u8 = 0xa5;

// What is lent to a call, words or bytes: a line says each as the number that it is.
pub trait Lent: Copy + Into<usize> {
    ghost number: { Self → ℕ };

    ghost into_number: { (x : Self) (n : ℕ) → Self.Into.converts x n → n ≡ number x };
}

impl Lent for usize {
    ghost number = { itself };

    ghost into_number = { λ x n e. e };
}

impl Lent for u8 {
    ghost number = { itself };

    ghost into_number = { λ x n e. e };
}

// Whether words are what is lent, all of it.
#[tactic(auto, using(crate::proofs::Pairs::unlike))]
fn same<T: Lent>(words: &[usize], lent: &[T]) -> bool
    ensures { result ≡ same T.number words.now lent.now }
{
    words.len() == lent.len() && words.iter().zip(lent).all(|(w, x)| *w == (*x).into())
}

// Whether everything lent is v: what it was before a call.
pub fn kept<T: Lent>(lent: &[T], v: T) -> bool
    ensures { result ≡ kept T.number (T.number v) lent.now }
{
    let v: usize = v.into();
    lent.iter().all(|x| v == (*x).into())
}

// Whether words are the first n of what is lent, and what is past them is v.
pub fn same_then_kept<T: Lent>(words: &[usize], lent: &[T], n: usize, v: T) -> bool
    ensures value { result ≡ same_then_kept T.number (T.number v) words.now lent.now n }
    ensures short { result ≡ true → (length words.now ≡ n) × (n ≤ length lent.now) }
{
    lent.split_at_checked(n)
        .is_some_and(|(front, rest)| same(words, front) && kept(rest, v))
}

// Whether all that is said is the words of an answer, and then the first n of what is lent, which is v past those. A refusal leaves what
// is lent as it was: n is 0.
pub fn same_result<T: Lent>(said: &[usize], words: &[usize], lent: &[T], n: usize, v: T) -> bool
    ensures value { result ≡ same_result T.number (T.number v) said.now words.now lent.now n }
    ensures short { result ≡ true → (length said.now ≡ length words.now + n) × (n ≤ length lent.now) }
{
    said.strip_prefix(words)
        .is_some_and(|rest| same_then_kept(rest, lent, n, v))
}

// Whether a C function gave the first of the numbers said: they begin with the number that it returned, and are the words of its
// answer, `most` at most, with zeros after them.
#[tactic(auto, unfolding(crate::specs::Same::same_answer))]
pub fn same_answer(said: &[usize], number: usize, answer: &[usize], most: usize) -> bool
    ensures { result ≡ same_answer said.now number answer.now most }
{
    let n = said.len().min(most);
    let words = &said[..n];
    words.first() == Some(&number) && same_then_kept(words, answer, n, 0)
}

// Whether a C function gave all that is said: the words of its answer, then what is lent, which is v past that.
pub fn same_call<T: Lent>(
    said: &[usize],
    number: usize,
    answer: &[usize],
    most: usize,
    lent: &[T],
    v: T,
) -> bool
    ensures { result ≡ (same_answer said.now number answer.now most
        && same_then_kept T.number (T.number v) (drop (in_answer said.now most) said.now) lent.now (length said.now - in_answer said.now most)) }
{
    let rest = &said[said.len().min(most)..];
    same_answer(said, number, answer, most) && same_then_kept(rest, lent, rest.len(), v)
}
