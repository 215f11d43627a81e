// The page that a printout is written on. No other crate can call a method that cuts text off: `print` alone is public, and its page has
// room for every printout.
ghost use Rattle.std.specs.Prelude.{◌≡◌, ◌<◌, [], ◌∷◌, ◌++◌};
ghost use Rattle.lsm_format.specs.Printout.{decimal, spaced, hex_bytes, numbers_text};
ghost use Rattle.lsm_printout.specs.Put.{put};

use arrayvec::ArrayVec;
use std::io::Write;
use std::marker::Model;

// Text in a memory of N bytes. A method appends its text, or as much of it as there is room for. So none can fail, as `write!` can: std
// doesn't say when that answers Ok, and so the digits are not made by it but by itoa and hex.
#[derive(Drop)]
pub(crate) struct Page<const N: usize> {
    text: ArrayVec<u8, N>,
}

impl<const N: usize> Model for Page<N> {
    ghost use Rattle.std.specs.Prelude.{ℕ, List};

    ghost Value = { List ℕ };

    ghost view = { λ p. p.text.items };
}

impl<const N: usize> Page<N> {
    pub(crate) fn new() -> Page<N>
        ensures { result ≡ [] }
    {
        Page {
            text: ArrayVec::new(),
        }
    }

    pub(crate) fn as_slice(&self) -> &[u8]
        ensures { result.now ≡ self.now }
    {
        self.text.as_slice()
    }

    #[tactic(auto, using(crate::proofs::Puts::put_written))]
    pub(crate) fn bytes(&mut self, bytes: &[u8])
        ensures { self.new ≡ put N self.old bytes.now }
    {
        let _ = self.text.write(bytes);
    }

    pub(crate) fn byte(&mut self, b: u8)
        ensures { self.new ≡ put N self.old (b ∷ []) }
    {
        self.bytes(&[b]);
    }

    // A number in decimal.
    #[tactic(auto, using(crate::proofs::Numbers::decimal_same))]
    pub(crate) fn decimal(&mut self, n: usize)
        ensures { self.new ≡ put N self.old (decimal n) }
    {
        let mut digits = itoa::Buffer::new();
        self.bytes(digits.format(n).as_bytes());
    }

    // Numbers, each with a space before it.
    #[tactic(auto, using(crate::proofs::Numbers::numbers_written), unfolding(lsm_format::specs::Printout::numbers_text))]
    fn numbers(&mut self, numbers: &[usize])
        ensures { self.new ≡ put N self.old (numbers_text numbers.now) }
    {
        for &n in numbers {
            self.byte(b' ');
            self.decimal(n);
        }
    }

    // A line of a word and numbers.
    #[tactic(auto, using(crate::proofs::Puts::after))]
    pub(crate) fn line(&mut self, word: &[u8], numbers: &[usize])
        ensures { self.new ≡ put N self.old (word.now ++ numbers_text numbers.now ++ 10 ∷ []) }
    {
        self.bytes(word);
        self.numbers(numbers);
        self.byte(b'\n');
    }

    // Bytes in hex, two small digits each.
    #[tactic(auto, using(crate::proofs::Numbers::hex_written), unfolding(lsm_format::specs::Printout::hex_bytes))]
    pub(crate) fn hex(&mut self, bytes: &[u8])
        ensures { self.new ≡ put N self.old (hex_bytes bytes.now) }
    {
        for &b in bytes {
            let mut digits = [0; 2];
            let _ = hex::encode_to_slice([b], &mut digits);
            self.bytes(&digits);
        }
    }
}
