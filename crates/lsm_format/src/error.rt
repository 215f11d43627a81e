// The papers' refusals: document 01's, and what document 02 adds.
ghost use Rattle.std.specs.Prelude.{◌≡◌, ◌≤◌, length};
ghost use Rattle.lsm_format.specs.Code.{row_of};

use arrayvec::ArrayVec;

#[derive(Clone, Copy)]
pub enum Refusal {
    // The container is malformed: a read past the end, a wrong header.
    Parse,
    // The bytes can't be made into the picture that they announce.
    Decode,
    // The file is of a sort that this reader doesn't take.
    Unsupported,
    // A size above its limit.
    OversizedAllocation {
        requested: usize,
        cap: usize,
    },
    // A scene that the file doesn't have.
    SceneOutOfRange {
        scene: usize,
        count: usize,
    },
    // A coordinate outside its scene.
    OutOfRange {
        scene: usize,
        t: usize,
        c: usize,
        z: usize,
    },
    // Lent memory that is too short; nothing else stood in the way.
    TooShort {
        needed: usize,
    },
    // Channels of one page with different bits, or bits for another number of channels.
    UnevenBits,
    // An entry's value below 0, where a number, a place or a length is stated.
    NegativeValue,
}

// The row of these numbers. The longest has five, so there is room for all of them.
fn row(numbers: &[usize]) -> ArrayVec<usize, 5>
    requires { length numbers.now ≤ 5 }
    ensures { result.items ≡ numbers.now }
{
    let mut row = ArrayVec::new();
    let _fits = row.try_extend_from_slice(numbers);
    row
}

impl Refusal {
    // A refusal's number and values in the papers' order.
    pub fn numbers(self) -> ArrayVec<usize, 5>
        ensures { result.items ≡ row_of self }
    {
        match self {
            Refusal::Parse => row(&[1]),
            Refusal::Decode => row(&[2]),
            Refusal::Unsupported => row(&[3]),
            Refusal::OversizedAllocation { requested, cap } => row(&[4, requested, cap]),
            Refusal::SceneOutOfRange { scene, count } => row(&[5, scene, count]),
            Refusal::OutOfRange { scene, t, c, z } => row(&[6, scene, t, c, z]),
            Refusal::TooShort { needed } => row(&[7, needed]),
            Refusal::UnevenBits => row(&[8]),
            Refusal::NegativeValue => row(&[9]),
        }
    }
}
