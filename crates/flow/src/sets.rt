ghost use Rattle.std.specs.Prelude.{◌≡◌, ℕ, ◌^◌, ◌<◌, ◌≤◌, false, not, ◌&&◌, ◌==◌, bit_or};
ghost use Rattle.flow.specs.Bits.{bit};
ghost use Rattle.flow.specs.Reading.{Added};

use std::marker::Model;

// A set of the steps 0 to 31. A clause sees it as the number in which the step s weighs 2^s.
#[derive(Clone, Copy, PartialEq, Eq, Default, Debug)]
pub struct StepSet {
    bits: u32,
}

impl Model for StepSet {
    ghost use Rattle.std.specs.Prelude.{ℕ, ◌<◌, ◌^◌};

    ghost Value = { ℕ };

    ghost view = { λ s. s.bits };

    ghost invariant = { λ s. s.bits < 2 ^ 32 };

    ghost inverse = { λ n. record { bits = n } };
}

impl From<u32> for StepSet {
    ghost from_gives = { λ n r. r ≡ n };

    fn from(bits: u32) -> StepSet {
        StepSet { bits }
    }
}

impl From<StepSet> for u32 {
    ghost from_gives = { λ s r. r ≡ s };

    fn from(set: StepSet) -> u32 {
        set.bits
    }
}

impl StepSet {
    // Whether a step is in the set. No number past 31 is.
    pub fn has(self, step: usize) -> bool
        ensures member { result ≡ bit self step }
        ensures past { 32 ≤ step → result ≡ false }
    {
        step < 32 && self.bits >> step & 1 == 1
    }

    // Whether no step is in the set.
    pub fn is_empty(self) -> bool
        ensures { result ≡ (self == 0) }
    {
        self.bits == 0
    }

    // The set with one step more. A number past 31 is no step, and changes nothing.
    pub fn with(self, step: usize) -> StepSet
        ensures step { step < 32 → Added self step result }
        ensures past { 32 ≤ step → result ≡ self }
        ensures small { result < 2 ^ 32 }
    {
        if step >= 32 {
            return self;
        }
        StepSet {
            bits: self.bits | 1 << step,
        }
    }

    // The steps that are in either set.
    pub(crate) fn union(self, other: StepSet) -> StepSet
        ensures both { result ≡ bit_or self other }
        ensures past { (s : ℕ) → 32 ≤ s → bit result s ≡ false }
        ensures small { result < 2 ^ 32 }
    {
        StepSet {
            bits: self.bits | other.bits,
        }
    }

    // The steps of the set that are not in the other.
    pub fn without(self, other: StepSet) -> StepSet
        ensures steps { (s : ℕ) → bit result s ≡ (bit self s && not (bit other s)) }
        ensures small { result < 2 ^ 32 }
    {
        StepSet {
            bits: self.bits & !other.bits,
        }
    }
}
