ghost use Rattle.std.specs.Prelude.{◌≡◌, ◌+◌, ◌<◌, [], ◌∷◌, MatchOption};
ghost use Rattle.std.specs.Iterator.{YieldsFirst, item_count};
ghost use Rattle.flow.specs.Bits.{members_from};

use crate::sets::StepSet;
use std::marker::Model;

// The steps of a set from one of them on, ascending. A clause sees it as the list of those that are still to come.
#[derive(Drop)]
pub struct Members {
    set: StepSet,
    from: usize,
}

impl Model for Members {
    ghost use Rattle.std.specs.Prelude.{ℕ, List};
    ghost use Rattle.flow.specs.Bits.{members_from};

    ghost Value = { List ℕ };

    ghost view = { λ m. members_from m.set m.from };
}

impl StepSet {
    // The steps of the set, ascending.
    pub fn iter(self) -> Members
        ensures { result ≡ members_from self 0 }
    {
        Members { set: self, from: 0 }
    }

    // The first step of the set that is not below a number.
    fn first_from(self, from: usize) -> Option<usize>
        ensures { MatchOption result (members_from self from ≡ []) (λ s. (s < 32) × (members_from self from ≡ s ∷ members_from self (s + 1))) }
    {
        (from..32).find(|s| self.has(*s))
    }
}

impl Iterator for Members {
    type Item = usize;

    ghost next_gives = { YieldsFirst (λ steps. steps) };

    ghost remaining = { item_count (λ steps. steps) };

    fn next(&mut self) -> Option<usize> {
        let first = self.set.first_from(self.from);
        if let Some(step) = first {
            self.from = step + 1;
        }
        first
    }
}
