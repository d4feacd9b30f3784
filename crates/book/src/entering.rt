ghost use Rattle.std.specs.Prelude.{◌≡◌, ℕ, ◌≤◌, List, [], length, MatchResult, Result as Perhaps};
ghost use Rattle.steps.specs.Rosters.{Fit, numbers};
ghost use Rattle.book.specs.Enter.{AllNumbered, Countable, Entered, Unnumbered, written};
ghost use Rattle.book.specs.Jobs.{Opens};
ghost use Rattle.book.specs.View.{Stays, held_by, memory_of};

use crate::entries::Entry;
use crate::faults::EnterFault;
use crate::shape::Book;
use arrayvec::ArrayVec;
use steps::{Roster, RosterFault, Step};

// The most events that a job has.
const MOST: usize = 1000;

// Puts the step numbers of a job into a list, or finds its first event that is not on the roster. The list is the caller's,
// since a list that is answered is copied whole, however short the job.
pub(crate) fn number_events<T: Step>(
    roster: &Roster<T>,
    job: &[T],
    numbers: &mut ArrayVec<u8, MOST>,
) -> Result<(), RosterFault>
    requires few { length roster.now.entries.now ≤ 32 }
    requires sized { length job.now ≤ 1000 }
    requires empty { numbers.old.items ≡ [] }
    ensures { MatchResult result (λ _. AllNumbered T.cmp roster.now.entries.now job.now numbers.new.items) (λ fault. Unnumbered roster.now.entries.now job.now fault) }
{
    for (place, event) in job.iter().enumerate() {
        let Some(number) = roster.number(event) else {
            return Err(RosterFault::Unlisted { place });
        };
        numbers.push(number as u8);
    }
    Ok(())
}

impl Book<'_> {
    // Enters a job, row by row.
    fn enter_job<T: Step>(&mut self, roster: &Roster<T>, job: &[T]) -> Result<Entry, EnterFault>
        ensures entered { Entered T.cmp self.old.steps (length (memory_of self.old)) (held_by self.old) roster.now.entries.now job.now result (held_by self.new) }
        ensures written { memory_of self.new ≡ written (held_by self.old) (numbers T.cmp roster.now.entries.now job.now) result (memory_of self.old) }
        ensures stays { Stays self.old self.new }
    {
        self.open_or_void()?;
        roster.fit(self.steps)?;
        if job.is_empty() || job.len() > MOST {
            return Err(EnterFault::Events);
        }
        let mut numbers = ArrayVec::new();
        number_events(roster, job, &mut numbers)?;
        Ok(self.keep(numbers.as_slice())?)
    }

    // Enters a job: its number among the jobs held, and whether it is new. No other answer is right, and no other jobs held.
    pub fn enter<T: Step>(&mut self, roster: &Roster<T>, job: &[T]) -> Result<Entry, EnterFault>
        ensures entered { Entered T.cmp self.old.steps (length (memory_of self.old)) (held_by self.old) roster.now.entries.now job.now result (held_by self.new) }
        ensures only { (s : Perhaps Entry EnterFault) (js : List (List ℕ)) → Entered T.cmp self.old.steps (length (memory_of self.old)) (held_by self.old) roster.now.entries.now job.now s js → (s ≡ result) × (js ≡ held_by self.new) }
        ensures written { memory_of self.new ≡ written (held_by self.old) (numbers T.cmp roster.now.entries.now job.now) result (memory_of self.old) }
        ensures stays { Stays self.old self.new }
    {
        self.enter_job(roster, job)
    }
}
