ghost use Rattle.std.specs.Prelude.{◌≡◌, ℕ, ◌<◌, false, ◌↔◌};
ghost use Rattle.facts.specs.Compared.{SameLoopsBy, SameNeighbours};

use crate::both::Both;
use crate::sets::sets_differ;

impl Both {
    // Whether a step loops in the one, and has another only-before or only-after in the other.
    fn loop_differs(&self, t: usize) -> bool
        ensures { (result ≡ false) ↔ SameNeighbours self.now t }
    {
        self.one.loops(t)
            && (sets_differ(self.one.only_before(t), self.other.only_before(t))
                || sets_differ(self.one.only_after(t), self.other.only_after(t)))
    }

    // Whether some step loops in the one, and has another only-before or only-after in the other.
    fn neighbours_differ(&self) -> bool
        ensures { (result ≡ false) ↔ ((t : ℕ) → t < 32 → SameNeighbours self.now t) }
    {
        (0..32).any(|t| self.loop_differs(t))
    }

    // Whether other steps loop in the one than in the other, or a looping step has other neighbours.
    pub(crate) fn loops_differ(&self) -> bool
        ensures { (result ≡ false) ↔ SameLoopsBy self.now }
    {
        sets_differ(self.one.looping, self.other.looping) || self.neighbours_differ()
    }
}
