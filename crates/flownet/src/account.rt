use crate::declined::Declined;
use book::{Book, FeedFault};
use refusals::Refusal;
use std::io;
use steps::{Name, Roster};
use texts::TextTrail;
use trails::{Eraser, Trail};

// The longest text that is taken.
pub(crate) const LONGEST_TEXT: usize = 65_536;

// The words of a book's memory.
const BOOK_WORDS: usize = 16_384;

fn print_roster(rt: &HostRuntime, roster: &Roster<Name>) -> io::Result<()> {
    let count = roster.len();
    println!(rt; "strictly ascending, steps: {count}")?;
    for (number, name) in roster.steps().iter().enumerate() {
        println!(rt; "{number} {name}")?;
    }
    Ok(())
}

// How many jobs a feed accepted, whatever its answer.
fn accepted(answer: &Result<u64, FeedFault>) -> u64 {
    match *answer {
        Ok(count) => count,
        Err(fault) => Refusal::from(fault).job,
    }
}

// Prints what the text says: the roster on its first line, then how many of its jobs a book accepted, without the step
// that is erased. Answers why it goes no further, if it does not come to the end: a result of its own, beside that of
// printing.
pub(crate) fn print_account(
    rt: &HostRuntime,
    text: &[u8],
    erased: Name,
) -> io::Result<Result<(), Declined>> {
    if text.len() > LONGEST_TEXT {
        return Ok(Err(Declined::TooLong));
    }
    let mut work = vec![in rt.alloc(); erased; 1000]?;
    let mut trail = TextTrail::new(text);
    let n = match trail.next(work.as_mut_slice()) {
        Ok(Some(n)) => n,
        Ok(None) => return Ok(Err(Declined::NoRoster)),
        Err(stop) => return Ok(Err(Declined::Trail(stop))),
    };
    let steps = Vec::from_slice(rt.alloc(), &work.as_slice()[0..n])?;
    let roster = Roster::new(steps.as_slice());
    let mut memory = vec![in rt.alloc(); 0u32; BOOK_WORDS]?;
    let mut book = Book::open(memory.as_mut_slice(), n);
    let mut rest = Eraser::new(trail, erased);
    let answer = book.feed(&roster, &mut rest, work.as_mut_slice());
    if roster.is_ascending() && n <= 32 {
        print_roster(rt, &roster)?;
        let count = accepted(&answer);
        println!(rt; "accepted: {count}")?;
    }
    Ok(answer.map(|_| ()).map_err(Declined::Feed))
}
