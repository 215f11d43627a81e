// An answer as the lists have it: 0 and what was accepted, or a refusal's number and values.
ghost use Rattle.std.specs.Prelude.{◌≡◌, true, ◌≤◌, length};
ghost use Rattle.lsm_format.specs.Code.{row_of, answer_of};
ghost use Rattle.lsm_replay.specs.Told.{told};

use lsm_format::error::Refusal;

// Whether a refusal's numbers are those said.
#[tactic(auto, using(crate::proofs::Told::some_row))]
pub fn refused(said: &[usize], r: Refusal) -> bool
    ensures row { result ≡ true → said.now ≡ row_of r }
    ensures some { result ≡ true → 1 ≤ length said.now }
{
    said == r.numbers().as_slice()
}

// Whether the answer is what is said.
pub fn told(said: &[usize], answer: Result<usize, Refusal>) -> bool
    ensures value { result ≡ true → said.now ≡ told (answer_of answer) }
    ensures some { result ≡ true → 1 ≤ length said.now }
{
    match answer {
        Ok(n) => said == [0, n].as_slice(),
        Err(r) => refused(said, r),
    }
}
