ghost use Rattle.std.specs.Prelude.{◌≡◌, ℕ, ◌≤◌, List, length, Result as Perhaps};
ghost use Rattle.steps.specs.Rosters.{Fit, numbers};
ghost use Rattle.book.specs.Enter.{Countable, written};
ghost use Rattle.book.specs.Feed.{Checked, Ends, Fed, Ready, Together, Took, laid};
ghost use Rattle.book.specs.Jobs.{Opens};
ghost use Rattle.book.specs.View.{Stays, held_by, memory_of};

use crate::entering::number_events;
use crate::entries::Entry;
use crate::faults::FeedFault;
use crate::shape::Book;
use arrayvec::ArrayVec;
use steps::{Roster, Step};
use trails::{Trail, TrailStop};

// What a trail says where it gives no job, to a feed.
fn checked(asked: Result<Option<usize>, TrailStop>) -> Result<(), FeedFault>
    ensures { Checked asked result }
{
    asked?;
    Ok(())
}

// What a feed answers after so many jobs, where the trail gave none.
fn ended(asked: Result<Option<usize>, TrailStop>, count: u64) -> Result<u64, FeedFault>
    ensures { Ends asked count result }
{
    checked(asked).map_err(|fault| fault.at_job(count))?;
    Ok(count)
}

impl Book<'_> {
    // What a feed asks ahead of its jobs, with so many steps of work memory.
    fn ready<T: Step>(&self, roster: &Roster<T>, work: usize) -> Result<(), FeedFault>
        ensures { Ready T.cmp self.now.steps (length (memory_of self.now)) roster.now.entries.now work result }
    {
        self.open_or_void()?;
        roster.fit(self.steps)?;
        if work < 1000 {
            return Err(FeedFault::ShortWork);
        }
        Ok(())
    }

    // Enters a job of a trail.
    fn take_job<T: Step>(&mut self, roster: &Roster<T>, job: &[T]) -> Result<Entry, FeedFault>
        requires open { Opens self.old.steps (length (memory_of self.old)) }
        requires fit { Fit T.cmp roster.now.entries.now self.old.steps }
        requires sized { Countable job.now }
        ensures took { Took T.cmp self.old.steps (length (memory_of self.old)) roster.now.entries.now (held_by self.old) job.now result (held_by self.new) }
        ensures written { memory_of self.new ≡ written (held_by self.old) (numbers T.cmp roster.now.entries.now job.now) result (memory_of self.old) }
        ensures stays { Stays self.old self.new }
    {
        let mut numbers = ArrayVec::new();
        number_events(roster, job, &mut numbers)?;
        Ok(self.keep(numbers.as_slice())?)
    }

    // Enters the jobs of a trail up to its ending. The work memory is lent, so its length is a clause; that the ending stays
    // is told of the trail before and after, which no type holds.
    fn feed_jobs<T: Trail>(
        &mut self,
        roster: &Roster<T::Step>,
        trail: &mut T,
        work: &mut [T::Step],
    ) -> Result<u64, FeedFault>
        requires open { Opens self.old.steps (length (memory_of self.old)) }
        requires fit { Fit T.Step.cmp roster.now.entries.now self.old.steps }
        requires work { 1000 ≤ length work.old }
        ensures fed { Fed T.Step.cmp self.old.steps (length (memory_of self.old)) roster.now.entries.now (T.Trail.jobs trail.old) (T.Trail.ending trail.old) (length work.old) (held_by self.old) result (held_by self.new) (T.Trail.jobs trail.new) }
        ensures ending { T.Trail.ending trail.new ≡ T.Trail.ending trail.old }
        ensures laid { memory_of self.new ≡ laid (memory_of self.old) (held_by self.new) }
        ensures stays { Stays self.old self.new }
    {
        let mut count: u64 = 0;
        loop {
            let asked = trail.next(work);
            let Ok(next) = asked else {
                return ended(asked, count);
            };
            let Some(n) = next else {
                return Ok(count);
            };
            self.take_job(roster, &work[0..n])
                .map_err(|fault| fault.at_job(count))?;
            count += 1;
        }
    }

    // Feeds a trail, row by row.
    fn feed_trail<T: Trail>(
        &mut self,
        roster: &Roster<T::Step>,
        trail: &mut T,
        work: &mut [T::Step],
    ) -> Result<u64, FeedFault>
        ensures fed { Fed T.Step.cmp self.old.steps (length (memory_of self.old)) roster.now.entries.now (T.Trail.jobs trail.old) (T.Trail.ending trail.old) (length work.old) (held_by self.old) result (held_by self.new) (T.Trail.jobs trail.new) }
        ensures ending { T.Trail.ending trail.new ≡ T.Trail.ending trail.old }
        ensures laid { memory_of self.new ≡ laid (memory_of self.old) (held_by self.new) }
        ensures stays { Stays self.old self.new }
    {
        self.ready(roster, work.len())?;
        self.feed_jobs(roster, trail, work)
    }

    // Enters the jobs of a trail up to its ending, or up to the first that is declined, and answers how many were accepted.
    // No other answer is right, no other jobs held, and no other jobs left to the trail. After a feed to the end of another
    // trail it is a feed of the jobs of both.
    pub fn feed<T: Trail>(
        &mut self,
        roster: &Roster<T::Step>,
        trail: &mut T,
        work: &mut [T::Step],
    ) -> Result<u64, FeedFault>
        ensures fed { Fed T.Step.cmp self.old.steps (length (memory_of self.old)) roster.now.entries.now (T.Trail.jobs trail.old) (T.Trail.ending trail.old) (length work.old) (held_by self.old) result (held_by self.new) (T.Trail.jobs trail.new) }
        ensures only { (s : Perhaps ℕ FeedFault) (hs : List (List ℕ)) (left : List (List T.Step)) → Fed T.Step.cmp self.old.steps (length (memory_of self.old)) roster.now.entries.now (T.Trail.jobs trail.old) (T.Trail.ending trail.old) (length work.old) (held_by self.old) s hs left → (s ≡ result) × (hs ≡ held_by self.new) × (left ≡ T.Trail.jobs trail.new) }
        ensures together { Together T.Step.cmp self.old.steps (length (memory_of self.old)) roster.now.entries.now (T.Trail.jobs trail.old) (T.Trail.ending trail.old) (held_by self.old) result (held_by self.new) (T.Trail.jobs trail.new) }
        ensures ending { T.Trail.ending trail.new ≡ T.Trail.ending trail.old }
        ensures laid { memory_of self.new ≡ laid (memory_of self.old) (held_by self.new) }
        ensures stays { Stays self.old self.new }
    {
        self.feed_trail(roster, trail, work)
    }
}
