ghost use Rattle.std.specs.Prelude.{◌≡◌, ℕ, ◌^◌, ◌<◌};
ghost use Rattle.flow.specs.Bits.{bit, row};
ghost use Rattle.flow.specs.Flow.{turn_of, leads_of, unrelated_of, beside_of, feeds_of};
ghost use Rattle.flow.specs.Rows.{before_by, after_by, only_before_by, only_after_by, stands_by};

use crate::relations::Relations;
use crate::sets::StepSet;

impl Relations {
    // Whether b comes right after a in a reduced job.
    pub fn precedes(&self, a: usize, b: usize) -> bool
        ensures { result ≡ row self.now.precedes a b }
    {
        self.precedes.has(a, b)
    }

    // Whether two different steps each return right after the other in reduced jobs.
    pub fn turn(&self, a: usize, b: usize) -> bool
        ensures { result ≡ turn_of (row self.now.precedes) (row self.now.returns) a b }
    {
        a != b && (self.returns.has(a, b) && self.returns.has(b, a))
    }

    // Whether a precedes b, and b does not precede a or they turn.
    pub fn leads(&self, a: usize, b: usize) -> bool
        ensures { result ≡ leads_of (row self.now.precedes) (row self.now.returns) a b }
    {
        self.precedes(a, b) && (!self.precedes(b, a) || self.turn(a, b))
    }

    // Whether neither precedes the other.
    pub fn unrelated(&self, a: usize, b: usize) -> bool
        ensures { result ≡ unrelated_of (row self.now.precedes) (row self.now.returns) a b }
    {
        !self.precedes(a, b) && !self.precedes(b, a)
    }

    // Whether each precedes the other, and they do not turn.
    pub fn beside(&self, a: usize, b: usize) -> bool
        ensures { result ≡ beside_of (row self.now.precedes) (row self.now.returns) a b }
    {
        (self.precedes(a, b) && self.precedes(b, a)) && !self.turn(a, b)
    }

    // Whether a leads to b, and neither precedes itself.
    pub fn feeds(&self, a: usize, b: usize) -> bool
        ensures { result ≡ feeds_of (row self.now.precedes) (row self.now.returns) a b }
    {
        self.leads(a, b) && (!self.precedes(a, a) && !self.precedes(b, b))
    }

    // Whether a step comes twice running in a held job.
    pub fn loops(&self, s: usize) -> bool
        ensures { result ≡ bit self.now.looping s }
    {
        self.looping.has(s)
    }

    // Whether a step stands in a reduced job.
    pub fn stands(&self, s: usize) -> bool
        ensures { result ≡ stands_by self.now s }
    {
        self.seen.has(s) && !self.loops(s)
    }

    // The steps right before the step t in held jobs that do not loop. A function of the rows in place of this one and the
    // next would be no plainer: it has no word of its own.
    fn before(&self, t: usize) -> StepSet
        ensures { (s : ℕ) → bit result s ≡ before_by self.now t s }
    {
        self.followed.row(t).without(self.looping)
    }

    // The steps right after the step t in held jobs that do not loop.
    fn after(&self, t: usize) -> StepSet
        ensures { (s : ℕ) → bit result s ≡ after_by self.now t s }
    {
        self.follows.row(t).without(self.looping)
    }

    // The steps right before the step t in held jobs that do not loop and are not right after it.
    pub fn only_before(&self, t: usize) -> StepSet
        ensures steps { (s : ℕ) → bit result s ≡ only_before_by self.now t s }
        ensures small { result < 2 ^ 32 }
    {
        self.before(t).without(self.after(t))
    }

    // The steps right after the step t in held jobs that do not loop and are not right before it.
    pub fn only_after(&self, t: usize) -> StepSet
        ensures steps { (s : ℕ) → bit result s ≡ only_after_by self.now t s }
        ensures small { result < 2 ^ 32 }
    {
        self.after(t).without(self.before(t))
    }
}
