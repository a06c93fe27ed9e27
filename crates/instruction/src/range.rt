// Which numbers fit a field.
ghost use Rattle.std.specs.Prelude.{◌≡◌, true, false, MatchResult};
ghost use Rattle.instruction.specs.Range.{outside, unfit};

use crate::answer::Misfit;
use crate::kind::Kind;

// Whether z is not from low to high.
pub fn is_outside(low: i32, high: i32, z: i32) -> bool
    ensures { result ≡ outside low high z }
{
    z < low || high < z
}

impl Kind {
    // Whether a number does not fit a field of this kind.
    #[tactic(auto, unfolding(crate::specs::Range::unfit))]
    pub fn is_unfit(self, z: i32) -> bool
        ensures { result ≡ unfit self z }
    {
        match self {
            Kind::Absent => false,
            Kind::Immediate => is_outside(0, 255, z),
            Kind::Direct => is_outside(0, 511, z),
            Kind::Register => is_outside(0, 3, z),
            Kind::BitNumber => is_outside(0, 7, z),
            Kind::Page => is_outside(0, 4095, z),
            Kind::Far => is_outside(0, 65535, z),
            Kind::Short => is_outside(-128, 127, z),
            Kind::Long => is_outside(0, 65535, z),
        }
    }

    // The number of operand n, counted from 1, where it fits a field of this kind.
    pub fn held(self, n: u8, z: i32) -> Result<i32, Misfit>
        ensures { MatchResult result (λ y. (unfit self z ≡ false) × (y ≡ z)) (λ m. (unfit self z ≡ true) × (m ≡ record { operand = n; value = z })) }
    {
        if self.is_unfit(z) {
            return Err(Misfit {
                operand: n,
                value: z,
            });
        }
        Ok(z)
    }
}
