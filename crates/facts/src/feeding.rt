ghost use Rattle.std.specs.Prelude.{◌≡◌, false, ◌↔◌};
ghost use Rattle.facts.specs.Compared.{SameFeedsBy, SameSteps, feeds_by};

use crate::both::Both;

impl Both {
    // Whether a step feeds other steps in the one than in the other.
    fn feeds_differ_of(&self, a: usize) -> bool
        ensures { (result ≡ false) ↔ SameSteps (feeds_by self.now.one a) (feeds_by self.now.other a) }
    {
        (0..32).any(|b| self.one.feeds(a, b) != self.other.feeds(a, b))
    }

    // Whether some step feeds other steps in the one than in the other.
    pub(crate) fn feeds_differ(&self) -> bool
        ensures { (result ≡ false) ↔ SameFeedsBy self.now }
    {
        (0..32).any(|a| self.feeds_differ_of(a))
    }
}
