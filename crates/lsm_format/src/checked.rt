// Sums and products that may pass 64 bits. Handed-in descriptions and tables can hold any number, so each is tested first.
ghost use Rattle.std.specs.Prelude.{◌≡◌, ◌+◌, ◌*◌};
ghost use Rattle.lsm_format.specs.Words.{word};

#[tactic(auto, unfolding(crate::specs::Words::word))]
pub fn checked_add(a: usize, b: usize) -> Option<usize>
    ensures { result ≡ word (a + b) }
{
    a.checked_add(b)
}

#[tactic(auto, unfolding(crate::specs::Words::word))]
pub fn checked_mul(a: usize, b: usize) -> Option<usize>
    ensures { result ≡ word (a * b) }
{
    a.checked_mul(b)
}
