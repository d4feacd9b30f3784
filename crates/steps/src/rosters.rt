ghost use Rattle.std.specs.Prelude.{◌≡◌, ℕ, ◌<◌, length, MatchBool, Option as Perhaps, MatchOption};
ghost use Rattle.steps.specs.Faults.{FitOrNot, ListedOrNot};
ghost use Rattle.steps.specs.Rosters.{Ascending, Numbered, Listed, FirstUnlisted};

use crate::faults::RosterFault;
use crate::kinds::Step;

// The steps of a batch, in memory that the caller lends. Step number s is entry s.
#[derive(Clone, Copy)]
pub struct Roster<'a, T: Step> {
    entries: &'a [T],
}

// Whether each step is before every later one.
fn ascends<T: Step>(steps: &[T]) -> bool
    ensures { MatchBool result (Ascending T.cmp steps.now) (Ascending T.cmp steps.now → ⊥) }
{
    steps.is_sorted_by(|a, b| a < b)
}

// The first place of a step.
fn place_of<T: Step>(steps: &[T], step: &T) -> Option<usize>
    ensures { Numbered steps.now step.now result }
{
    steps.iter().position(|listed| listed == step)
}

// Whether an event is one of the steps.
fn is_listed<T: Step>(steps: &[T], event: &T) -> bool
    ensures { MatchBool result (Listed steps.now event.now) (Listed steps.now event.now → ⊥) }
{
    steps.contains(event)
}

// The first event of a job that is none of the steps. No other answer is right.
fn first_unlisted<T: Step>(steps: &[T], job: &[T]) -> Option<usize>
    ensures first { FirstUnlisted steps.now job.now result }
    ensures only { (s : Perhaps ℕ) → FirstUnlisted steps.now job.now s → s ≡ result }
{
    job.iter().position(|event| !is_listed(steps, event))
}

impl<'a, T: Step> Roster<'a, T> {
    // The roster of these steps, whatever they are: `is_ascending` tells whether it is lawful.
    pub fn new(steps: &'a [T]) -> Self
        ensures { result.entries.now ≡ steps.now }
    {
        Roster { entries: steps }
    }

    // The steps that it was made of.
    pub fn steps(&self) -> &'a [T]
        ensures { result.now ≡ self.now.entries.now }
    {
        self.entries
    }

    pub fn len(&self) -> usize
        ensures { result ≡ length self.now.entries.now }
    {
        self.steps().len()
    }

    // Whether each step is before every later one.
    pub fn is_ascending(&self) -> bool
        ensures { MatchBool result (Ascending T.cmp self.now.entries.now) (Ascending T.cmp self.now.entries.now → ⊥) }
    {
        ascends(self.entries)
    }

    // The number of a step, or none where it is not on the roster.
    pub fn number(&self, step: &T) -> Option<usize>
        ensures first { Numbered self.now.entries.now step.now result }
        ensures only { (s : Perhaps ℕ) → Numbered self.now.entries.now step.now s → s ≡ result }
    {
        place_of(self.entries, step)
    }

    // The first event of a job that is not on the roster.
    pub fn first_unlisted(&self, job: &[T]) -> Option<usize>
        ensures first { FirstUnlisted self.now.entries.now job.now result }
        ensures only { (s : Perhaps ℕ) → FirstUnlisted self.now.entries.now job.now s → s ≡ result }
    {
        first_unlisted(self.entries, job)
    }

    // Declines the roster unless it is strictly ascending and has so many steps.
    pub fn fit(&self, count: usize) -> Result<(), RosterFault>
        ensures { FitOrNot T.cmp self.now.entries.now count result }
    {
        if self.len() != count || !self.is_ascending() {
            return Err(RosterFault::Unfit);
        }
        Ok(())
    }

    // Declines a job that has an event which is not on the roster.
    pub fn all_listed(&self, job: &[T]) -> Result<(), RosterFault>
        ensures { ListedOrNot self.now.entries.now job.now result }
    {
        match self.first_unlisted(job) {
            Some(place) => Err(RosterFault::Unlisted { place }),
            None => Ok(()),
        }
    }
}
