ghost use Rattle.std.specs.Prelude.{◌≡◌, ℕ, ◌+◌, ◌<◌, ◌≤◌, [], ◌∷◌, ◌++◌, length, MatchResult};
ghost use Rattle.std.proofs.Math.Seq.{paste};
ghost use Rattle.book.specs.Enter.{Countable, HeldAt, Kept, NotHeld, OpenOrNot, unused, written};
ghost use Rattle.book.specs.Jobs.{OfSteps, Opens, encode, encoded};
ghost use Rattle.book.specs.View.{Stays, held_by, memory_of};

use crate::entries::Entry;
use crate::faults::{NoRoom, Void};
use crate::finding::{HEAD, find};
use crate::shape::Book;

// What asks for an open book is called once a void one is told apart. It is a clause, and no type of open book: that would
// hold the book by `&mut`, and each clause would tell of the lent book at the end of the loan. So with a job of 1 to 1,000
// events, which is a slice of its caller.
impl Book<'_> {
    // Writes a new job's words past the used ones, and counts them as used.
    fn append(&mut self, job: &[u8])
        requires open { Opens self.old.steps (length (memory_of self.old)) }
        requires sized { Countable job.now }
        requires steps { OfSteps self.old.steps job.now }
        requires room { self.old.used + 1 + length job.now ≤ length (memory_of self.old) }
        requires new { NotHeld (held_by self.old) job.now }
        ensures words { memory_of self.new ≡ paste (memory_of self.old) (1 + length (encode (held_by self.old))) (encoded job.now) (length (encoded job.now)) }
        ensures used { self.new.used ≡ self.old.used + 1 + length job.now }
        ensures held { held_by self.new ≡ held_by self.old ++ job.now ∷ [] }
        ensures stays { Stays self.old self.new }
    {
        let at = self.used;
        self.words[at] = HEAD + job.len() as u32;
        // By place: of words that are written through `iter_mut` under `zip` a proof knows nothing.
        for (k, number) in job.iter().enumerate() {
            self.words[at + 1 + k] = u32::from(*number);
        }
        self.used = at + 1 + job.len();
    }

    // How many words no job has taken.
    fn unused(&self) -> usize
        requires { Opens self.now.steps (length (memory_of self.now)) }
        ensures { (result ≡ unused (length (memory_of self.now)) (held_by self.now)) × (self.now.used + result ≡ length (memory_of self.now)) }
    {
        self.words.len() - self.used
    }

    // The number of the held job that is equal to a job, or else how many are held, as `find` answers it.
    fn number(&self, job: &[u8]) -> Result<usize, usize>
        requires { Opens self.now.steps (length (memory_of self.now)) }
        ensures { MatchResult result (λ n. HeldAt (held_by self.now) job.now n) (λ n. (n ≡ length (held_by self.now)) × NotHeld (held_by self.now) job.now) }
    {
        find(self.words, self.used, job)
    }

    // Declines a void book.
    pub fn open_or_void(&self) -> Result<(), Void>
        ensures { OpenOrNot self.now.steps (length (memory_of self.now)) result }
    {
        if self.steps < 1 || self.steps > 32 {
            return Err(Void::Steps);
        }
        if self.words.len() < 2 || self.words.len() > 16_384 {
            return Err(Void::Memory);
        }
        Ok(())
    }

    // The number of steps that it was opened for, void or not.
    pub fn steps(&self) -> usize
        ensures { result ≡ self.now.steps }
    {
        self.steps
    }

    // The words of the jobs held.
    pub fn job_words(&self) -> &[u32]
        ensures { result.now ≡ encode (held_by self.now) }
    {
        if self.used == 0 {
            return &self.words[0..0];
        }
        &self.words[1..self.used]
    }

    // Keeps a job of step numbers, unless an equal one is held.
    pub(crate) fn keep(&mut self, job: &[u8]) -> Result<Entry, NoRoom>
        requires open { Opens self.old.steps (length (memory_of self.old)) }
        requires sized { Countable job.now }
        requires steps { OfSteps self.old.steps job.now }
        ensures kept { Kept (length (memory_of self.old)) (held_by self.old) job.now result (held_by self.new) }
        ensures written { memory_of self.new ≡ written (held_by self.old) job.now result (memory_of self.old) }
        ensures stays { Stays self.old self.new }
    {
        match self.number(job) {
            Ok(number) => Ok(Entry::Held { number }),
            Err(number) => {
                if job.len() + 1 > self.unused() {
                    return Err(NoRoom);
                }
                self.append(job);
                Ok(Entry::New { number })
            }
        }
    }
}
