ghost use Rattle.std.specs.Prelude.{◌≡◌, ℕ, ◌<◌, true, false, ◌↔◌};
ghost use Rattle.facts.specs.Compared.{AkinOf, Common, SameKinBy, SameKinOf, feeds_by};

use crate::both::Both;
use flow::Relations;

// Whether both steps feed the step c, or both are fed by it.
fn in_common(x: &Relations, a: usize, b: usize, c: usize) -> bool
    ensures { (result ≡ true) ↔ Common (feeds_by x.now) a b c }
{
    x.feeds(a, c) && x.feeds(b, c) || x.feeds(c, a) && x.feeds(c, b)
}

// Whether two steps feed a common step, or are fed by one.
fn common(x: &Relations, a: usize, b: usize) -> bool
    ensures { (result ≡ true) ↔ ((c : ℕ) × (c < 32) × Common (feeds_by x.now) a b c) }
{
    (0..32).any(|c| in_common(x, a, b, c))
}

// Whether two different steps feed a common step, or are fed by one.
fn akin(x: &Relations, a: usize, b: usize) -> bool
    ensures { (result ≡ true) ↔ AkinOf (feeds_by x.now) a b }
{
    a != b && common(x, a, b)
}

impl Both {
    // Whether two steps are akin in both, and unrelated in one only.
    fn kin_differs(&self, a: usize, b: usize) -> bool
        ensures { (result ≡ false) ↔ SameKinOf self.now a b }
    {
        akin(&self.one, a, b)
            && akin(&self.other, a, b)
            && self.one.unrelated(a, b) != self.other.unrelated(a, b)
    }

    // Whether a step is akin to some step in both, and unrelated to it in one only.
    fn kin_differ_of(&self, a: usize) -> bool
        ensures { (result ≡ false) ↔ ((b : ℕ) → b < 32 → SameKinOf self.now a b) }
    {
        (0..32).any(|b| self.kin_differs(a, b))
    }

    // Whether some two steps are akin in both, and unrelated in one only.
    pub(crate) fn kin_differ(&self) -> bool
        ensures { (result ≡ false) ↔ SameKinBy self.now }
    {
        (0..32).any(|a| self.kin_differ_of(a))
    }
}
