// Examples of the book, at both kinds of step, and a caller that knows its memory once a book in it has ended.
#![tactic(auto)]

ghost use Rattle.std.specs.Prelude.{◌≡◌, ◌+◌, ◌^◌, [], length, slice_set};
ghost use Rattle.steps.specs.Rosters.{numbers};
ghost use Rattle.book.specs.Enter.{written};
ghost use Rattle.book.specs.Jobs.{Opens};

use book::{Book, EnterFault, Entry};
use steps::{Roster, Step};

// Enters one job into a new book and ends the book: the lent memory then has word 0 and, where the job was accepted, its
// words behind it, and the rest is as it was.
fn entered_and_ended<T: Step>(
    memory: &mut [u32],
    steps: usize,
    roster: &Roster<T>,
    job: &[T],
) -> Result<Entry, EnterFault>
    requires { Opens steps (length memory.old) }
    ensures { memory.new ≡ written [] (numbers T.cmp roster.now.entries.now job.now) result (slice_set memory.old 0 (2 ^ 31 + steps)) }
{
    let mut book = Book::open(memory, steps);
    book.enter(roster, job)
}

#[cfg(test)]
mod tests {
    use super::*;
    use book::{FeedFault, Void};
    use refusals::Refusal;
    use std::process::Abort;
    use std::test::Fail;
    use steps::{Code, Name, RosterFault};
    use texts::TextTrail;
    use trails::{Cause, Trail, TrailFault};
    use words::WordTrail;

    fn name(text: &[u8]) -> Result<Name, Fail> {
        Name::new(text).ok_or_else(|| Fail::new("no name"))
    }

    fn code(code: u32) -> Result<Code, Fail> {
        Code::new(1, code).ok_or_else(|| Fail::new("no code"))
    }

    #[test]
    fn words_of_a_book(rt: HostRuntime) -> Result<(), Fail> {
        let a = name(b"A")?;
        let b = name(b"B")?;
        let mut memory = [0xdead_beef_u32; 9];
        {
            let steps = [a, b];
            let roster = Roster::new(&steps);
            let mut book = Book::open(&mut memory, 2);
            assert_eq!(rt; book.enter(&roster, &[b, a]), Ok(Entry::New { number: 0 }));
            assert_eq!(rt; book.enter(&roster, &[b]), Ok(Entry::New { number: 1 }));
            assert_eq!(rt; book.enter(&roster, &[b, a]), Ok(Entry::Held { number: 0 }));
            assert_eq!(rt; book.enter(&roster, &[a, a, a]), Err(EnterFault::Room));
            assert_eq!(rt; book.enter(&roster, &[a, a]), Ok(Entry::New { number: 2 }));
            assert_eq!(rt; book.enter(&roster, &[a]), Err(EnterFault::Room));
            assert_eq!(rt; book.enter(&roster, &[b]), Ok(Entry::Held { number: 1 }));
        }
        let expected = [
            0x8000_0002,
            0x4000_0002,
            1,
            0,
            0x4000_0001,
            1,
            0x4000_0002,
            0,
            0,
        ];
        assert_eq!(rt; memory, expected);
        Ok(())
    }

    #[test]
    fn rest_of_the_memory(rt: HostRuntime) -> Result<(), Fail> {
        let one = code(1)?;
        let steps = [one];
        let roster = Roster::new(&steps);
        let mut memory = [7u32; 4];
        assert_eq!(rt;
            entered_and_ended(&mut memory, 1, &roster, &[one]),
            Ok(Entry::New { number: 0 })
        );
        assert_eq!(rt; memory, [0x8000_0001, 0x4000_0001, 0, 7]);
        Ok(())
    }

    // A book for so many steps in this memory declines an entry so.
    fn declines(
        rt: &impl Abort,
        memory: &mut [u32],
        steps: usize,
        fault: EnterFault,
    ) -> Result<(), Fail> {
        let first = code(1)?;
        let steps_of = [first];
        let roster = Roster::new(&steps_of);
        let mut book = Book::open(memory, steps);
        assert_eq!(rt; book.enter(&roster, &[first]), Err(fault));
        Ok(())
    }

    #[test]
    fn void_books(rt: HostRuntime) -> Result<(), Fail> {
        let mut some = [7u32; 4];
        declines(&rt, &mut some, 0, EnterFault::Void(Void::Steps))?;
        declines(&rt, &mut some, 33, EnterFault::Void(Void::Steps))?;
        let mut one = [7u32; 1];
        declines(&rt, &mut one, 33, EnterFault::Void(Void::Steps))?;
        declines(&rt, &mut one, 1, EnterFault::Void(Void::Memory))?;
        let mut long = [7u32; 16_385];
        declines(&rt, &mut long, 1, EnterFault::Void(Void::Memory))
    }

    #[test]
    fn books_at_the_limits(rt: HostRuntime) -> Result<(), Fail> {
        let mut two = [7u32; 2];
        declines(&rt, &mut two, 1, EnterFault::Room)?;
        let mut most = [7u32; 16_384];
        declines(&rt, &mut most, 32, EnterFault::Roster(RosterFault::Unfit))
    }

    #[test]
    fn a_void_book_leaves_its_memory(rt: HostRuntime) -> Result<(), Fail> {
        let mut memory = [7u32; 4];
        declines(&rt, &mut memory, 33, EnterFault::Void(Void::Steps))?;
        assert!(rt; memory.len() == 4);
        assert_eq!(rt; memory[0], 7);
        Ok(())
    }

    #[test]
    fn declined_entries(rt: HostRuntime) -> Result<(), Fail> {
        let one = code(1)?;
        let two = code(2)?;
        let steps = [one];
        let roster = Roster::new(&steps);
        let job = [one; 1001];
        let mut memory = [0u32; 1002];
        let mut book = Book::open(&mut memory, 1);
        assert_eq!(rt; book.enter(&roster, &job), Err(EnterFault::Events));
        assert_eq!(rt; book.enter(&roster, &[]), Err(EnterFault::Events));
        assert_eq!(rt;
            book.enter(&roster, &[one, two, two]),
            Err(EnterFault::Roster(RosterFault::Unlisted { place: 1 }))
        );
        assert_eq!(rt;
            book.enter(&Roster::new(&[one, two]), &[one]),
            Err(EnterFault::Roster(RosterFault::Unfit))
        );
        assert_eq!(rt;
            book.enter(&roster, &job[0..1000]),
            Ok(Entry::New { number: 0 })
        );
        assert_eq!(rt;
            book.enter(&roster, &job[0..1000]),
            Ok(Entry::Held { number: 0 })
        );
        assert_eq!(rt; book.enter(&roster, &[one]), Err(EnterFault::Room));
        assert_eq!(rt;
            Refusal::from(EnterFault::Room),
            Refusal {
                row: 6,
                layer: 3,
                job: 0,
                place: 0,
                cause: 0,
            }
        );
        Ok(())
    }

    #[test]
    fn feeds_of_names(rt: HostRuntime) -> Result<(), Fail> {
        let a = name(b"A")?;
        let steps = [a, name(b"B")?];
        let roster = Roster::new(&steps);
        let mut short = [a; 999];
        let mut work = [a; 1000];
        let mut memory = [0u32; 64];
        let mut book = Book::open(&mut memory, 2);
        let mut trail = TextTrail::new(b"A B\nB\nA B\nA C\nB B\n*");
        assert_eq!(rt;
            book.feed(&roster, &mut trail, &mut short),
            Err(FeedFault::ShortWork)
        );
        let unlisted = RosterFault::Unlisted { place: 1 };
        assert_eq!(rt;
            book.feed(&roster, &mut trail, &mut work),
            Err(FeedFault::Roster {
                fault: unlisted,
                job: 3,
            })
        );
        let odd = TrailFault {
            cause: Cause::OddByte,
            place: 18,
        };
        let fault = FeedFault::Trail { fault: odd, job: 1 };
        assert_eq!(rt; book.feed(&roster, &mut trail, &mut work), Err(fault));
        assert_eq!(rt;
            Refusal::from(fault),
            Refusal {
                row: 8,
                layer: 1,
                job: 1,
                place: 18,
                cause: 5,
            }
        );
        assert_eq!(rt;
            book.feed(&roster, &mut TextTrail::new(b"A B\nA\n"), &mut work),
            Ok(2)
        );
        assert_eq!(rt; book.enter(&roster, &[a]), Ok(Entry::Held { number: 3 }));
        Ok(())
    }

    #[test]
    fn feeds_of_codes(rt: HostRuntime) -> Result<(), Fail> {
        let one = code(1)?;
        let steps = [one];
        let roster = Roster::new(&steps);
        let mut work = [one; 1000];
        let mut memory = [0u32; 4];
        let mut book = Book::open(&mut memory, 1);
        let batch = [
            0x4000_0001,
            0x0100_0001,
            0x4000_0002,
            0x0100_0001,
            0x0100_0001,
            0x4000_0001,
            0x0100_0001,
            0x8000_0000,
        ];
        let mut trail = WordTrail::new(&batch);
        assert_eq!(rt;
            book.feed(&roster, &mut trail, &mut work),
            Err(FeedFault::Room { job: 1 })
        );
        assert_eq!(rt; book.feed(&roster, &mut trail, &mut work), Ok(1));
        assert_eq!(rt; book.feed(&roster, &mut trail, &mut work), Ok(0));
        assert_eq!(rt; trail.next(&mut work), Ok(None));
        Ok(())
    }
}
