ghost use Rattle.std.specs.Prelude.{◌<◌};
ghost use Rattle.flow.specs.Reading.{Bounded, Ended, Noted, Took};

use crate::sets::StepSet;
use crate::tally::Tally;

impl Tally {
    // Takes one event more of the job that is being read.
    fn event(&mut self, step: usize)
        ensures noted { step < 32 → Noted self.old step self.new }
        ensures bounded { Bounded self.old → Bounded self.new }
    {
        self.seen = self.seen.with(step);
        if self.latest.is_empty() {
            self.first = self.first.with(step);
        }
        if self.latest.has(step) {
            self.looping = self.looping.with(step);
        }
        self.followed.add(step, self.latest);
        if self.earlier.has(step) {
            self.returns.add(step, self.latest);
        }
        self.earlier = self.latest;
        self.latest = StepSet::default().with(step);
    }

    // Ends the job that is being read.
    pub(crate) fn end(&mut self)
        ensures ended { Ended self.old self.new }
        ensures bounded { Bounded self.old → Bounded self.new }
    {
        self.last = self.last.union(self.latest);
        self.latest = StepSet::default();
        self.earlier = StepSet::default();
    }

    // Takes one word more: a step, or the head of the next job.
    pub(crate) fn word(&mut self, left_out: StepSet, word: u32)
        ensures took { Took left_out self.old word self.new }
        ensures bounded { Bounded self.old → Bounded self.new }
    {
        if word >= 32 {
            self.end();
        } else if !left_out.has(word as usize) {
            self.event(word as usize);
        }
    }
}
