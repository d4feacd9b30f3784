ghost use Rattle.book.specs.View.{held_by};
ghost use Rattle.flow.specs.Means.{Means};
ghost use Rattle.flow.specs.Reading.{Bounded, Tallies, whole, without};
ghost use Rattle.flow.specs.Rows.{Shows};

use crate::relations::Relations;
use crate::sets::StepSet;
use crate::tally::Tally;
use book::Book;

// The tally of the jobs that a book holds, without the steps of a set.
fn tally_jobs(book: &Book, left_out: StepSet) -> Tally
    ensures tallies { Tallies (whole (without left_out (held_by book.now))) result }
    ensures bounded { Bounded result }
{
    let words = book.job_words();
    let mut tally = Tally::default();
    for word in words {
        tally.word(left_out, *word);
    }
    tally.end();
    tally
}

impl Relations {
    // The relations of the jobs that a book holds, each of which is its sentence by positions in those jobs. It goes over
    // the book's words twice.
    pub fn of(book: &Book) -> Relations
        ensures shows { Shows (held_by book.now) result }
        ensures means { Means (held_by book.now) }
    {
        let held = tally_jobs(book, StepSet::default());
        let reduced = tally_jobs(book, held.looping);
        Relations {
            seen: held.seen,
            looping: held.looping,
            first: reduced.first,
            last: reduced.last,
            follows: held.followed.turned(),
            followed: held.followed,
            precedes: reduced.followed.turned(),
            returns: reduced.returns,
        }
    }
}
