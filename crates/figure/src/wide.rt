// Whole numbers of nine limbs: room for any f32 as a fraction, and ten times as much.
ghost use Rattle.std.specs.Prelude.{◌≡◌, ◌+◌, ◌-◌, ◌*◌, ◌^◌, ◌≤◌, ◌<◌, leb, SomeIff, option_map};
ghost use Rattle.figure.specs.Wide.{room};
ghost use Rattle.figure.specs.Code.{number_of};

// A wide number: its limbs of 32 bits, the lowest first.
#[derive(Clone, Copy)]
pub(crate) struct Wide {
    limbs: [u32; 9],
}

impl Wide {
    #[tactic(auto, unfolding(crate::specs::Wide::value))]
    pub(crate) fn new(n: u32) -> Wide
        ensures { number_of result ≡ n }
    {
        Wide {
            limbs: [n, 0, 0, 0, 0, 0, 0, 0, 0],
        }
    }

    #[tactic(auto, using(crate::proofs::Limbs::multiplied))]
    pub(crate) fn times(self, k: u32) -> Wide
        requires { k * number_of self < room }
        ensures { number_of result ≡ k * number_of self }
    {
        let mut limbs = self.limbs;
        let mut carry = 0;
        for limb in limbs.iter_mut() {
            let (low, high) = limb.carrying_mul(k, carry);
            *limb = low;
            carry = high;
        }
        Wide { limbs }
    }

    // Less another; None where the other is larger. Its limbs are found by their places: beside a `zip` nothing would be known of what is written.
    #[tactic(auto, using(crate::proofs::Limbs::subtracted))]
    pub(crate) fn checked_sub(self, other: Wide) -> Option<Wide>
        ensures { SomeIff (option_map number_of result) (number_of other ≤ number_of self) (number_of self - number_of other) }
    {
        let mut limbs = self.limbs;
        let mut borrow = false;
        for (i, limb) in limbs.iter_mut().enumerate() {
            let (low, over) = limb.borrowing_sub(other.limbs[i], borrow);
            *limb = low;
            borrow = over;
        }
        if borrow { None } else { Some(Wide { limbs }) }
    }

    // Whether it is no smaller than another. The subtraction says it already: a `PartialOrd` of limbs that stand lowest first
    // would be a second loop.
    pub(crate) fn at_least(self, other: Wide) -> bool
        ensures { result ≡ leb (number_of other) (number_of self) }
    {
        self.checked_sub(other).is_some()
    }

    // Doubled `k` times: a mantissa's own power of two.
    #[tactic(auto, using(crate::proofs::Powers::doubled_fits, crate::proofs::Powers::once_more))]
    pub(crate) fn doubled(self, k: u32) -> Wide
        requires { (number_of self < 2 ^ 24) × (k < 254) }
        ensures { number_of result ≡ number_of self * 2 ^ k }
    {
        let mut w = self;
        for _ in 0..k {
            w = w.times(2);
        }
        w
    }
}
