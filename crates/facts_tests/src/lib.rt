// Examples of which facts differ between two books.
#![tactic(auto)]

#[cfg(test)]
mod tests {
    use book::Book;
    use facts::{Differences, differences};
    use std::process::Abort;
    use std::test::Fail;
    use steps::{Name, Roster};
    use texts::TextTrail;

    const NONE: Differences = Differences {
        seen: false,
        loops: false,
        ends: false,
        feeds: false,
        kin: false,
    };

    fn name(text: &[u8]) -> Result<Name, Fail> {
        Name::new(text).ok_or_else(|| Fail::new("no name"))
    }

    // Feeds a text of jobs of the steps A, B, C and D.
    fn feed(rt: &impl Abort, book: &mut Book, text: &[u8]) -> Result<(), Fail> {
        let steps = [name(b"A")?, name(b"B")?, name(b"C")?, name(b"D")?];
        let mut work = [steps[0]; 1000];
        let roster = Roster::new(&steps);
        assert!(rt;
            book.feed(&roster, &mut TextTrail::new(text), &mut work)
                .is_ok()
        );
        Ok(())
    }

    // The books of two texts differ so.
    fn differ(
        rt: &impl Abort,
        first: &[u8],
        second: &[u8],
        expected: Differences,
    ) -> Result<(), Fail> {
        let mut memory = [0u32; 32];
        let mut other = [0u32; 32];
        let mut a = Book::open(&mut memory, 4);
        let mut b = Book::open(&mut other, 4);
        feed(rt, &mut a, first)?;
        feed(rt, &mut b, second)?;
        assert_eq!(rt; differences(&a, &b), expected);
        assert_eq!(rt; differences(&b, &a), expected);
        assert_eq!(rt; differences(&a, &a), NONE);
        Ok(())
    }

    #[test]
    fn none_differs(rt: HostRuntime) -> Result<(), Fail> {
        differ(&rt, b"A B\nC D\n", b"A B\nC D\nA C A B\n", NONE)?;
        assert!(rt; NONE.none());
        Ok(())
    }

    #[test]
    fn jobs_turned_round(rt: HostRuntime) -> Result<(), Fail> {
        let expected = Differences {
            ends: true,
            feeds: true,
            ..NONE
        };
        assert!(rt; !expected.none());
        differ(&rt, b"A B\n", b"B A\n", expected)
    }

    #[test]
    fn side_by_side_against_one_order(rt: HostRuntime) -> Result<(), Fail> {
        let expected = Differences {
            feeds: true,
            ..NONE
        };
        differ(&rt, b"A B C D\nA C B D\n", b"A B C D\n", expected)
    }

    #[test]
    fn looping_against_not_looping(rt: HostRuntime) -> Result<(), Fail> {
        let expected = Differences {
            loops: true,
            feeds: true,
            ..NONE
        };
        differ(&rt, b"A B B C\n", b"A B C\n", expected)
    }

    // One fact alone.
    #[test]
    fn each_alone(rt: HostRuntime) -> Result<(), Fail> {
        let seen = Differences { seen: true, ..NONE };
        differ(&rt, b"A\n", b"A\nA B A\n", seen)?;
        let loops = Differences {
            loops: true,
            ..NONE
        };
        differ(&rt, b"A B B C\n", b"A C B B\n", loops)?;
        let ends = Differences { ends: true, ..NONE };
        differ(&rt, b"A B\n", b"A B\nA\n", ends)?;
        let kin = Differences { kin: true, ..NONE };
        differ(&rt, b"A B D\nA C D\n", b"A B C D\nA C B D\n", kin)
    }

    #[test]
    fn void_against_empty(rt: HostRuntime) {
        let mut memory = [0u32; 1];
        let mut other = [0u32; 2];
        let void = Book::open(&mut memory, 4);
        let empty = Book::open(&mut other, 4);
        assert!(rt; differences(&void, &empty).none());
    }
}
