// Examples of the word trail: every cause at its first and last place, heads at both ends of their range and one past
// each, filler anywhere, the work memory.
#![tactic(auto)]

#[cfg(test)]
mod tests {
    use std::process::Abort;
    use std::test::Fail;
    use steps::Code;
    use trails::{Cause, Trail, TrailFault, TrailStop};
    use words::WordTrail;

    const HEAD: u32 = 0x4000_0000;

    const END: u32 = 0x8000_0000;

    const FILLER: u32 = 0xc000_0000;

    fn blank() -> Result<Code, Fail> {
        Code::new(0, 0).ok_or_else(|| Fail::new("no code"))
    }

    // So many jobs come, and then the ending, each time that the trail is asked.
    fn goes(
        rt: &impl Abort,
        words: &[u32],
        work: &mut [Code],
        jobs: usize,
        ending: Result<Option<usize>, TrailStop>,
    ) {
        let mut trail = WordTrail::new(words);
        for _ in 0..jobs {
            assert!(rt; matches!(trail.next(work), Ok(Some(_))));
        }
        assert_eq!(rt; trail.next(work), ending);
        assert_eq!(rt; trail.next(work), ending);
    }

    fn gives(
        rt: &impl Abort,
        words: &[u32],
        jobs: usize,
        ending: Result<Option<usize>, TrailStop>,
    ) -> Result<(), Fail> {
        let mut work = [blank()?; 1000];
        goes(rt, words, &mut work, jobs, ending);
        Ok(())
    }

    fn breaks(
        rt: &impl Abort,
        words: &[u32],
        jobs: usize,
        cause: Cause,
        place: usize,
    ) -> Result<(), Fail> {
        gives(
            rt,
            words,
            jobs,
            Err(TrailStop::Fault(TrailFault { cause, place })),
        )
    }

    #[test]
    fn words_out_of_turn(rt: HostRuntime) -> Result<(), Fail> {
        breaks(&rt, &[7, END], 0, Cause::OutOfTurn, 0)?;
        breaks(&rt, &[HEAD + 1, 7, 7], 1, Cause::OutOfTurn, 2)?;
        breaks(&rt, &[HEAD + 2, HEAD + 1, 7], 0, Cause::OutOfTurn, 1)?;
        breaks(&rt, &[HEAD + 2, 7, HEAD], 0, Cause::OutOfTurn, 2)?;
        breaks(&rt, &[HEAD + 1, END], 0, Cause::OutOfTurn, 1)?;
        breaks(&rt, &[HEAD + 2, 7, END + 1], 0, Cause::OutOfTurn, 2)
    }

    #[test]
    fn heads_of_no_size(rt: HostRuntime) -> Result<(), Fail> {
        breaks(&rt, &[HEAD, END], 0, Cause::JobSize, 0)?;
        breaks(&rt, &[HEAD + 1001], 0, Cause::JobSize, 0)?;
        breaks(&rt, &[HEAD + 1, 7, HEAD], 1, Cause::JobSize, 2)?;
        breaks(
            &rt,
            &[HEAD + 1, 7, HEAD + 0x3fff_ffff],
            1,
            Cause::JobSize,
            2,
        )
    }

    #[test]
    fn words_run_out(rt: HostRuntime) -> Result<(), Fail> {
        breaks(&rt, &[], 0, Cause::WordsRunOut, 0)?;
        breaks(&rt, &[FILLER, FILLER], 0, Cause::WordsRunOut, 2)?;
        breaks(&rt, &[HEAD + 2, 7], 0, Cause::WordsRunOut, 2)?;
        breaks(&rt, &[HEAD + 1, 7], 1, Cause::WordsRunOut, 2)
    }

    #[test]
    fn low_bits_of_the_end_word(rt: HostRuntime) -> Result<(), Fail> {
        breaks(&rt, &[END + 1, END], 0, Cause::EndBits, 0)?;
        breaks(&rt, &[HEAD + 1, 7, END + 0x3fff_ffff], 1, Cause::EndBits, 2)
    }

    #[test]
    fn nothing_after_the_end_is_read(rt: HostRuntime) -> Result<(), Fail> {
        gives(&rt, &[END], 0, Ok(None))?;
        gives(&rt, &[END, 7, HEAD, END + 1], 0, Ok(None))?;
        gives(
            &rt,
            &[HEAD + 1, 7, HEAD + 1, 8, END, HEAD + 1, 9],
            2,
            Ok(None),
        )
    }

    #[test]
    fn filler_anywhere(rt: HostRuntime) -> Result<(), Fail> {
        let mut work = [blank()?; 1000];
        let words = [
            FILLER,
            HEAD + 2,
            FILLER + 1,
            0x3fff_ffff,
            0xffff_ffff,
            0x0100_0002,
            FILLER,
            END,
        ];
        let mut trail = WordTrail::new(&words);
        assert_eq!(rt; trail.next(&mut work), Ok(Some(2)));
        assert_eq!(rt; work[0].unit(), 63);
        assert_eq!(rt; work[0].code(), 16_777_215);
        assert_eq!(rt; work[1].unit(), 1);
        assert_eq!(rt; work[1].code(), 2);
        assert_eq!(rt; trail.next(&mut work), Ok(None));
        Ok(())
    }

    #[test]
    fn jobs_of_1_and_1000_events(rt: HostRuntime) -> Result<(), Fail> {
        let mut work = [blank()?; 1000];
        let mut words = [7u32; 1004];
        words[0] = HEAD + 1;
        words[2] = HEAD + 1000;
        words[1003] = END;
        let mut trail = WordTrail::new(&words);
        assert_eq!(rt; trail.next(&mut work), Ok(Some(1)));
        assert_eq!(rt; trail.next(&mut work), Ok(Some(1000)));
        assert_eq!(rt; work[999].code(), 7);
        assert_eq!(rt; trail.next(&mut work), Ok(None));
        words[1002] = END;
        breaks(&rt, &words, 1, Cause::OutOfTurn, 1002)
    }

    #[test]
    fn work_memory_of_999_and_1000(rt: HostRuntime) -> Result<(), Fail> {
        let mut short = [blank()?; 999];
        let mut work = [blank()?; 1000];
        let mut trail = WordTrail::new(&[HEAD + 1, 7, END]);
        assert_eq!(rt; trail.next(&mut short), Err(TrailStop::ShortWork));
        assert_eq!(rt; trail.next(&mut work), Ok(Some(1)));
        assert_eq!(rt; trail.next(&mut short), Err(TrailStop::ShortWork));
        assert_eq!(rt; trail.next(&mut work), Ok(None));
        Ok(())
    }
}
