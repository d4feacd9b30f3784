// Examples of the text trail and of the eraser over it: every cause at its first and last place, the limits, and what an
// eraser leaves.
#![tactic(auto)]

#[cfg(test)]
mod tests {
    use std::process::Abort;
    use std::test::Fail;
    use steps::Name;
    use texts::TextTrail;
    use trails::{Cause, Eraser, Trail, TrailFault, TrailStop};

    fn name(text: &[u8]) -> Result<Name, Fail> {
        Name::new(text).ok_or_else(|| Fail::new("no name"))
    }

    // Jobs of these lengths come, and then the ending, each time that the trail is asked.
    fn asked<T: Trail<Step = Name>>(
        rt: &impl Abort,
        trail: &mut T,
        work: &mut [Name],
        lengths: &[usize],
        ending: Result<Option<usize>, TrailStop>,
    ) {
        for n in lengths {
            assert_eq!(rt; trail.next(work), Ok(Some(*n)));
        }
        assert_eq!(rt; trail.next(work), ending);
        assert_eq!(rt; trail.next(work), ending);
    }

    fn goes<T: Trail<Step = Name>>(
        rt: &impl Abort,
        trail: &mut T,
        lengths: &[usize],
        ending: Result<Option<usize>, TrailStop>,
    ) -> Result<(), Fail> {
        let mut work = [name(b"X")?; 1000];
        asked(rt, trail, &mut work, lengths, ending);
        Ok(())
    }

    fn gives(rt: &impl Abort, text: &[u8], lengths: &[usize]) -> Result<(), Fail> {
        goes(rt, &mut TextTrail::new(text), lengths, Ok(None))
    }

    fn breaks(
        rt: &impl Abort,
        text: &[u8],
        lengths: &[usize],
        cause: Cause,
        place: usize,
    ) -> Result<(), Fail> {
        goes(
            rt,
            &mut TextTrail::new(text),
            lengths,
            Err(TrailStop::Fault(TrailFault { cause, place })),
        )
    }

    #[test]
    fn lines_of_names(rt: HostRuntime) -> Result<(), Fail> {
        gives(&rt, b"", &[])?;
        gives(&rt, b"A\n", &[1])?;
        gives(&rt, b"LOAD READ\nDONE\nABCDEFGH _ 0 Z9\n", &[2, 1, 4])
    }

    #[test]
    fn odd_bytes(rt: HostRuntime) -> Result<(), Fail> {
        breaks(&rt, b"a", &[], Cause::OddByte, 0)?;
        breaks(&rt, b"A\tB\n", &[], Cause::OddByte, 1)?;
        breaks(&rt, b"A B\n\xff", &[2], Cause::OddByte, 4)?;
        breaks(&rt, b"A \0", &[], Cause::OddByte, 2)?;
        breaks(&rt, b"ABCDEFGH\r\n", &[], Cause::OddByte, 8)
    }

    #[test]
    fn ninth_bytes(rt: HostRuntime) -> Result<(), Fail> {
        breaks(&rt, b"ABCDEFGHI\n", &[], Cause::NinthByte, 8)?;
        breaks(
            &rt,
            b"A\nB ABCDEFGHIJKLMNOPQRS\n",
            &[1],
            Cause::NinthByte,
            12,
        )?;
        breaks(&rt, b"A ABCDEFGHI", &[], Cause::NinthByte, 10)
    }

    #[test]
    fn names_due(rt: HostRuntime) -> Result<(), Fail> {
        breaks(&rt, b" A\n", &[], Cause::NameDue, 0)?;
        breaks(&rt, b"\n", &[], Cause::NameDue, 0)?;
        breaks(&rt, b"A  B\n", &[], Cause::NameDue, 2)?;
        breaks(&rt, b"A \n", &[], Cause::NameDue, 2)?;
        breaks(&rt, b"A\n\nB\n", &[1], Cause::NameDue, 2)
    }

    #[test]
    fn lines_cut_short(rt: HostRuntime) -> Result<(), Fail> {
        breaks(&rt, b"A", &[], Cause::CutLine, 1)?;
        breaks(&rt, b"A ", &[], Cause::CutLine, 2)?;
        breaks(&rt, b"A\nB C", &[1], Cause::CutLine, 5)?;
        breaks(&rt, b"ABCDEFGH", &[], Cause::CutLine, 8)
    }

    #[test]
    fn lines_of_1000_and_1001_names(rt: HostRuntime) -> Result<(), Fail> {
        let mut text = [b' '; 2002];
        for byte in text.iter_mut().step_by(2) {
            *byte = b'A';
        }
        text[1999] = b'\n';
        gives(&rt, &text[0..2000], &[1000])?;
        text[1999] = b' ';
        breaks(&rt, &text[0..2002], &[], Cause::JobSize, 2000)?;
        breaks(&rt, &text[0..2000], &[], Cause::CutLine, 2000)?;
        text[2000] = b' ';
        breaks(&rt, &text[0..2002], &[], Cause::NameDue, 2000)?;
        text[2000] = b'*';
        breaks(&rt, &text[0..2002], &[], Cause::OddByte, 2000)
    }

    #[test]
    fn a_job_stands_in_the_work_memory(rt: HostRuntime) -> Result<(), Fail> {
        let mut work = [name(b"X")?; 1000];
        let mut trail = TextTrail::new(b"LOAD READ0\n");
        assert_eq!(rt; trail.next(&mut work), Ok(Some(2)));
        assert_eq!(rt; work[0].text(), b"LOAD".as_slice());
        assert_eq!(rt; work[1].text(), b"READ0".as_slice());
        Ok(())
    }

    #[test]
    fn erased_steps_and_emptied_jobs(rt: HostRuntime) -> Result<(), Fail> {
        let text = b"TICK LOAD TICK\nTICK TICK\nDONE\nTICK";
        let cut = Err(TrailStop::Fault(TrailFault {
            cause: Cause::CutLine,
            place: 34,
        }));
        goes(
            &rt,
            &mut Eraser::new(TextTrail::new(text), name(b"TICK")?),
            &[1, 1],
            cut,
        )?;
        goes(
            &rt,
            &mut Eraser::new(TextTrail::new(b"TICK\n"), name(b"TICK")?),
            &[],
            Ok(None),
        )?;
        let twice = Eraser::new(
            Eraser::new(TextTrail::new(text), name(b"TICK")?),
            name(b"DONE")?,
        );
        let mut twice = twice;
        goes(&rt, &mut twice, &[1], cut)
    }

    #[test]
    fn work_memory_of_999_and_1000(rt: HostRuntime) -> Result<(), Fail> {
        let mut short = [name(b"X")?; 999];
        let mut work = [name(b"X")?; 1000];
        let mut trail = Eraser::new(TextTrail::new(b"TICK\nLOAD TICK\n"), name(b"TICK")?);
        assert_eq!(rt; trail.next(&mut short), Err(TrailStop::ShortWork));
        assert_eq!(rt; trail.next(&mut work), Ok(Some(1)));
        assert_eq!(rt; trail.next(&mut short), Err(TrailStop::ShortWork));
        assert_eq!(rt; trail.next(&mut work), Ok(None));
        Ok(())
    }
}
