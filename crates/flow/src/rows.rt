ghost use Rattle.std.specs.Prelude.{◌≡◌, ℕ, ◌<◌, ◌≤◌, length};
ghost use Rattle.flow.specs.Bits.{bit, row};
ghost use Rattle.flow.specs.Reading.{Joined};

use crate::sets::StepSet;
use std::marker::Model;

// A relation of steps: row a is the set of the steps that the step a stands in the relation with. A clause sees it as the
// list of its rows.
#[derive(Clone, Copy, Default)]
pub(crate) struct StepRelation {
    rows: [StepSet; 32],
}

impl Model for StepRelation {
    ghost use Rattle.std.specs.Prelude.{ℕ, List};
    ghost use Rattle.flow.specs.Bits.{OfSteps};

    ghost Value = { List ℕ };

    ghost view = { λ r. r.rows };

    ghost invariant = { λ r. OfSteps r.rows };

    ghost inverse = { λ rows. record { rows = rows } };
}

// The steps whose rows have a step.
fn column(rows: &[StepSet; 32], step: usize) -> StepSet
    ensures { (b : ℕ) → bit result b ≡ row rows.now b step }
{
    let mut set = StepSet::default();
    for (b, row) in rows.iter().enumerate() {
        if row.has(step) {
            set = set.with(b);
        }
    }
    set
}

impl StepRelation {
    // The steps that the step a stands in the relation with. A number past 31 is no step, and has none.
    pub(crate) fn row(&self, a: usize) -> StepSet
        ensures { (b : ℕ) → bit result b ≡ row self.now a b }
    {
        self.rows.get(a).copied().unwrap_or_default()
    }

    // Whether a stands in the relation with b.
    pub(crate) fn has(&self, a: usize, b: usize) -> bool
        ensures { result ≡ row self.now a b }
    {
        self.row(a).has(b)
    }

    // Relates a step with the steps of a set too. A number past 31 is no step, and changes nothing.
    pub(crate) fn add(&mut self, step: usize, steps: StepSet)
        ensures step { step < 32 → Joined self.old step steps self.new }
        ensures past { 32 ≤ step → self.new ≡ self.old }
        ensures long { length self.new ≡ length self.old }
    {
        if step < 32 {
            self.rows[step] = self.rows[step].union(steps);
        }
    }

    // The relation turned about: a stands in it with b where b stands in this one with a.
    pub(crate) fn turned(&self) -> StepRelation
        ensures about { (a b : ℕ) → row result a b ≡ row self.now b a }
        ensures long { length result ≡ 32 }
    {
        let rows = &self.rows;
        StepRelation {
            rows: std::array::from_fn(|a| column(rows, a)),
        }
    }
}
