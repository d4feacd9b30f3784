// Examples of the two bonds of a book and of their lists: the side-by-side groups, places, and as many places as a list can
// have and more. And two callers that know of whatever relations they are lent that no step is past 31.
#![tactic(auto)]

ghost use Rattle.std.specs.Prelude.{◌≡◌, false};

use flow::Relations;

// No row is past the last step's.
fn precedes_from_past(relations: &Relations, b: usize) -> bool
    ensures { result ≡ false }
{
    relations.precedes(32, b)
}

// No number past the last step is in a set.
fn only_before_has_past(relations: &Relations, t: usize) -> bool
    ensures { result ≡ false }
{
    relations.only_before(t).has(40)
}

#[cfg(test)]
mod tests {
    use super::*;
    use bonds::{BondFault, PlaceBond, SideBond, list_places, list_sides};
    use book::{Book, Void};
    use groups::{Bond, ListFault};
    use refusals::Refusal;
    use std::process::Abort;
    use std::test::Fail;
    use steps::{Name, Roster};
    use texts::TextTrail;
    use trails::Trail;

    // A before eight pairs, the two of a pair side by side.
    const EIGHT_PAIRS: &[u8] =
        b"A B C D E F G H I J K L M N O P Q\nA B C\nA C B\nA D E\nA E D\nA F G\nA G F\nA H I\nA I H\nA J K\nA K J\nA L M\nA M L\nA N O\nA O N\nA P Q\nA Q P\n";

    // A before six triples, the three of a triple side by side.
    const SIX_TRIPLES: &[u8] =
        b"A B C D E F G H I J K L M N O P Q R S\nA B C\nA C D\nA D B\nA C B\nA D C\nA B D\nA E F\nA F G\nA G E\nA F E\nA G F\nA E G\nA H I\nA I J\nA J H\nA I H\nA J I\nA H J\nA K L\nA L M\nA M K\nA L K\nA M L\nA K M\nA N O\nA O P\nA P N\nA O N\nA P O\nA N P\nA Q R\nA R S\nA S Q\nA R Q\nA S R\nA Q S\n";

    fn name(text: &[u8]) -> Result<Name, Fail> {
        Ok(Name::new(text).ok_or("no name")?)
    }

    // Feeds a book the jobs of a text, whose first line is the roster.
    fn feed(rt: &impl Abort, book: &mut Book, text: &[u8]) -> Result<(), Fail> {
        let a = name(b"A")?;
        let mut names = [a; 1000];
        let mut work = [a; 1000];
        let mut trail = TextTrail::new(text);
        let Ok(Some(n)) = trail.next(&mut names) else {
            return Err(Fail::new("no roster"));
        };
        let roster = Roster::new(&names[0..n]);
        assert!(rt; book.feed(&roster, &mut trail, &mut work).is_ok());
        Ok(())
    }

    // The list is these groups, and the words after them are as they were.
    fn listed(rt: &impl Abort, answer: Result<usize, BondFault>, list: &[u64], groups: &[u64]) {
        assert_eq!(rt; answer, Ok(groups.len()));
        assert!(rt; groups.len() <= list.len());
        let (listed, rest) = list.split_at(groups.len());
        assert_eq!(rt; listed, groups);
        assert!(rt; rest.iter().all(|word| *word == 7));
    }

    // A list of the bond of a book that was fed this text is these groups.
    fn lists<F: Fn(&Book, &mut [u64]) -> Result<usize, BondFault>>(
        rt: &impl Abort,
        list_bond: F,
        text: &[u8],
        groups: &[u64],
    ) -> Result<(), Fail>
        requires { F.IsAlwaysCallable list_bond }
    {
        let mut memory = [0u32; 64];
        let mut book = Book::open(&mut memory, 4);
        feed(rt, &mut book, text)?;
        let mut list = [7u64; 8];
        listed(rt, list_bond(&book, &mut list), &list, groups);
        Ok(())
    }

    fn sides(rt: &impl Abort, text: &[u8], groups: &[u64]) -> Result<(), Fail> {
        lists(rt, list_sides, text, groups)
    }

    fn places(rt: &impl Abort, text: &[u8], groups: &[u64]) -> Result<(), Fail> {
        lists(rt, list_places, text, groups)
    }

    #[test]
    fn steps_side_by_side(rt: HostRuntime) -> Result<(), Fail> {
        sides(&rt, b"A B C D\nA B\nC D\n", &[1, 2, 4, 8])?;
        sides(&rt, b"A B C D\nA B\nC D\nA C A B\n", &[2, 8, 5])?;
        sides(&rt, b"A B C D\nA B C D\nA C B D\n", &[1, 8, 6])
    }

    #[test]
    fn steps_that_turn_are_not_side_by_side(rt: HostRuntime) -> Result<(), Fail> {
        sides(&rt, b"A B C D\nA B\nA C D B\nA C D C D B\n", &[1, 2, 4, 8])?;
        sides(&rt, b"A B C D\nA C D C B\n", &[1, 2, 12])
    }

    #[test]
    fn looping_and_unseen_steps_are_in_no_group(rt: HostRuntime) -> Result<(), Fail> {
        sides(&rt, b"A B C D\nA B B D\n", &[1, 8])?;
        places(&rt, b"A B C D\nA B B D\n", &[1 | 1 << 35])
    }

    #[test]
    fn places_of_a_choice_are_largest(rt: HostRuntime) -> Result<(), Fail> {
        places(
            &rt,
            b"A B C D\nA B D\nA C D\n",
            &[1 | 1 << 33 | 1 << 34, 2 | 4 | 1 << 35],
        )
    }

    #[test]
    fn no_jobs_no_groups(rt: HostRuntime) -> Result<(), Fail> {
        sides(&rt, b"A B C D\n", &[])?;
        places(&rt, b"A B C D\n", &[])
    }

    #[test]
    fn places_256_are_listed(rt: HostRuntime) -> Result<(), Fail> {
        let mut memory = [0u32; 1000];
        let mut book = Book::open(&mut memory, 17);
        feed(&rt, &mut book, EIGHT_PAIRS)?;
        let mut list = [7u64; 300];
        assert_eq!(rt; list_places(&book, &mut list), Ok(256));
        // the lowest has the first of each pair, the highest the second
        assert_eq!(rt; list[0], 1 | 0xaaaa << 32);
        assert_eq!(rt; list[255], 1 | 0x1_5554 << 32);
        assert_eq!(rt; list[256], 7);
        let mut short = [7u64; 255];
        assert_eq!(rt;
            list_places(&book, &mut short),
            Err(BondFault::List(ListFault::TooShort))
        );
        assert_eq!(rt; short, [7; 255]);
        Ok(())
    }

    #[test]
    fn places_729_are_declined(rt: HostRuntime) -> Result<(), Fail> {
        let mut memory = [0u32; 1000];
        let mut book = Book::open(&mut memory, 19);
        feed(&rt, &mut book, SIX_TRIPLES)?;
        let mut list = [7u64; 1000];
        let fault = BondFault::List(ListFault::TooMany);
        assert_eq!(rt; list_places(&book, &mut list), Err(fault));
        let refusal = Refusal {
            row: 10,
            layer: 4,
            job: 0,
            place: 0,
            cause: 0,
        };
        assert_eq!(rt; Refusal::from(fault), refusal);
        assert_eq!(rt; list, [7; 1000]);
        Ok(())
    }

    #[test]
    fn void_book(rt: HostRuntime) {
        let mut memory = [9u32; 10];
        let book = Book::open(&mut memory, 33);
        let mut list = [7u64; 4];
        let fault = BondFault::Void(Void::Steps);
        assert_eq!(rt; list_places(&book, &mut list), Err(fault));
        assert_eq!(rt; list_sides(&book, &mut list), Err(fault));
        assert_eq!(rt; list[0], 7);
        let mut places = PlaceBond::of(&book);
        let mut sides = SideBond::of(&book);
        assert_eq!(rt; places.size(), 64);
        assert_eq!(rt; sides.size(), 32);
        for p in 0..64 {
            assert_eq!(rt; places.pair(p, p), false);
            assert_eq!(rt; sides.pair(p, p), false);
        }
    }

    #[test]
    fn pairs_of_a_book_without_jobs(rt: HostRuntime) {
        let mut memory = [9u32; 10];
        let book = Book::open(&mut memory, 2);
        let mut places = PlaceBond::of(&book);
        let mut sides = SideBond::of(&book);
        assert_eq!(rt; places.pair(0, 1), true);
        assert_eq!(rt; places.pair(63, 63), true);
        assert_eq!(rt; places.pair(63, 64), false);
        assert_eq!(rt; places.pair(0, 33), false);
        assert_eq!(rt; sides.pair(0, 0), false);
    }

    #[test]
    fn numbers_past_the_last_step(rt: HostRuntime) -> Result<(), Fail> {
        let mut memory = [0u32; 8];
        let mut book = Book::open(&mut memory, 2);
        feed(&rt, &mut book, b"A B\nA B\n")?;
        let relations = Relations::of(&book);
        assert!(rt; relations.precedes(0, 1));
        assert!(rt; !precedes_from_past(&relations, 1));
        assert!(rt; !only_before_has_past(&relations, 1));
        Ok(())
    }
}
