// Examples of draws: nets word by word, memory that a net fits exactly and memory that lacks a word, as many places as a net
// can have and more, and what is declined.
#![tactic(auto)]

ghost use Rattle.std.specs.Prelude.{◌<◌, ◌≤◌, length};

#[cfg(test)]
mod tests {
    use book::{Book, Void};
    use net::{DrawFault, draw};
    use refusals::Refusal;
    use std::process::Abort;
    use std::test::Fail;
    use steps::{Name, Roster};
    use texts::TextTrail;

    fn name(text: &[u8]) -> Result<Name, Fail> {
        Name::new(text).ok_or_else(|| Fail::new("no name"))
    }

    // Names of one letter each.
    fn letters<const N: usize>(text: &[u8; N]) -> Result<[Name; N], Fail> {
        let mut names = [name(b"A")?; N];
        for (made, letter) in names.iter_mut().zip(text) {
            *made = name(&[*letter])?;
        }
        Ok(names)
    }

    // Draws the net of a new book that is fed this batch.
    fn draw_batch(
        rt: &impl Abort,
        names: &[Name],
        batch: &[u8],
        out: &mut [u32],
    ) -> Result<Result<usize, DrawFault>, Fail> {
        let mut memory = [0u32; 128];
        let mut work = [name(b"A")?; 1000];
        let roster = Roster::new(names);
        let mut book = Book::open(&mut memory, names.len());
        assert!(rt;
            book.feed(&roster, &mut TextTrail::new(batch), &mut work)
                .is_ok()
        );
        Ok(draw(&book, out))
    }

    // The memory begins with the words, and then is as it was.
    fn begins(rt: &impl Abort, out: &[u32], words: &[u32]) {
        assert!(rt; out.starts_with(words));
        assert!(rt; out.iter().skip(words.len()).all(|word| *word == 7));
    }

    // Drawing into so much of the memory has this answer, and the memory then begins with the words.
    fn draws_into(
        rt: &impl Abort,
        out: &mut [u32],
        room: usize,
        names: &[Name],
        batch: &[u8],
        answer: Result<usize, DrawFault>,
        words: &[u32],
    ) -> Result<(), Fail>
        requires { room ≤ length out.old }
    {
        out.fill(7);
        assert_eq!(rt; draw_batch(rt, names, batch, &mut out[0..room])?, answer);
        begins(rt, out, words);
        Ok(())
    }

    // The net of the batch has these words, in ample memory and in memory that they fit; memory of one word less is declined.
    fn draws(rt: &impl Abort, names: &[Name], batch: &[u8], words: &[u32]) -> Result<(), Fail>
        requires some { 0 < length words.now }
        requires few { length words.now ≤ 24 }
    {
        let n = words.len();
        let mut out = [0u32; 24];
        draws_into(rt, &mut out, 24, names, batch, Ok(n), words)?;
        draws_into(rt, &mut out, n, names, batch, Ok(n), words)?;
        draws_into(
            rt,
            &mut out,
            n - 1,
            names,
            batch,
            Err(DrawFault::TooShort),
            &[],
        )
    }

    #[test]
    fn a_step_that_loops(rt: HostRuntime) -> Result<(), Fail> {
        let names = [name(b"DONE")?, name(b"LOAD")?, name(b"READ")?];
        draws(
            &rt,
            &names,
            b"LOAD READ DONE\nLOAD READ READ DONE\nLOAD DONE\n",
            &[
                0x1000_0000,
                0x1000_0001,
                0x1000_0002,
                0x2000_0001,
                0x3000_0000,
                0x4000_0000,
                0x5000_0001,
                0x6000_0000,
                0x7000_0002,
                0x8000_0001,
            ],
        )
    }

    #[test]
    fn no_job_and_one_event(rt: HostRuntime) -> Result<(), Fail> {
        draws(&rt, &letters(b"ABCD")?, b"", &[0x8000_0000])?;
        draws(
            &rt,
            &letters(b"ABCD")?,
            b"A\n",
            &[0x1000_0000, 0x2000_0000, 0x3000_0000, 0x8000_0000],
        )
    }

    #[test]
    fn steps_side_by_side(rt: HostRuntime) -> Result<(), Fail> {
        draws(
            &rt,
            &letters(b"ABCD")?,
            b"A B C D\nA C B D\n",
            &[
                0x1000_0000,
                0x1000_0001,
                0x1000_0002,
                0x1000_0003,
                0x2000_0000,
                0x3000_0003,
                0x4000_0000,
                0x5000_0000,
                0x6000_0001,
                0x4000_0001,
                0x5000_0000,
                0x6000_0002,
                0x4000_0002,
                0x5000_0001,
                0x6000_0003,
                0x4000_0003,
                0x5000_0002,
                0x6000_0003,
                0x8000_0004,
            ],
        )
    }

    #[test]
    fn a_choice_of_steps(rt: HostRuntime) -> Result<(), Fail> {
        draws(
            &rt,
            &letters(b"ABCD")?,
            b"A B D\nA C D\n",
            &[
                0x1000_0000,
                0x1000_0001,
                0x1000_0002,
                0x1000_0003,
                0x2000_0000,
                0x3000_0003,
                0x4000_0000,
                0x5000_0000,
                0x6000_0001,
                0x6000_0002,
                0x4000_0001,
                0x5000_0001,
                0x5000_0002,
                0x6000_0003,
                0x8000_0002,
            ],
        )
    }

    #[test]
    fn steps_that_turn(rt: HostRuntime) -> Result<(), Fail> {
        draws(
            &rt,
            &letters(b"ABCD")?,
            b"A B\nA C D B\nA C D C D B\n",
            &[
                0x1000_0000,
                0x1000_0001,
                0x1000_0002,
                0x1000_0003,
                0x2000_0000,
                0x3000_0001,
                0x4000_0000,
                0x5000_0002,
                0x6000_0003,
                0x4000_0001,
                0x5000_0000,
                0x5000_0003,
                0x6000_0001,
                0x6000_0002,
                0x8000_0002,
            ],
        )?;
        draws(
            &rt,
            &letters(b"ABCD")?,
            b"A C D C B\n",
            &[
                0x1000_0000,
                0x1000_0001,
                0x1000_0002,
                0x1000_0003,
                0x2000_0000,
                0x3000_0001,
                0x4000_0000,
                0x5000_0002,
                0x6000_0001,
                0x4000_0001,
                0x5000_0000,
                0x6000_0002,
                0x8000_0002,
            ],
        )
    }

    #[test]
    fn neighbours_on_both_sides_of_a_looping_step(rt: HostRuntime) -> Result<(), Fail> {
        let names = letters(b"AEST")?;
        draws(
            &rt,
            &names,
            b"S T T E\nA T A\n",
            &[
                0x1000_0000,
                0x1000_0001,
                0x1000_0002,
                0x1000_0003,
                0x2000_0000,
                0x2000_0002,
                0x3000_0000,
                0x3000_0001,
                0x4000_0000,
                0x5000_0002,
                0x6000_0001,
                0x7000_0003,
                0x8000_0001,
            ],
        )
    }

    #[test]
    fn batches_with_one_net(rt: HostRuntime) -> Result<(), Fail> {
        let words = [
            0x1000_0000,
            0x1000_0001,
            0x1000_0002,
            0x1000_0003,
            0x2000_0000,
            0x2000_0002,
            0x3000_0001,
            0x3000_0003,
            0x4000_0000,
            0x5000_0000,
            0x6000_0001,
            0x4000_0001,
            0x5000_0002,
            0x6000_0003,
            0x8000_0002,
        ];
        draws(&rt, &letters(b"ABCD")?, b"A B\nC D\n", &words)?;
        draws(&rt, &letters(b"ABCD")?, b"A B\nC D\nA C A B\n", &words)
    }

    #[test]
    fn a_looping_step_that_sits_on_no_place(rt: HostRuntime) -> Result<(), Fail> {
        let names = letters(b"AT")?;
        let fault = DrawFault::Unseated { step: 1 };
        let mut out = [0u32; 24];
        draws_into(&rt, &mut out, 24, &names, b"A T T A\n", Err(fault), &[])?;
        draws_into(&rt, &mut out, 0, &names, b"A T T A\n", Err(fault), &[])?;
        assert_eq!(rt;
            Refusal::from(fault),
            Refusal {
                row: 9,
                layer: 4,
                job: 0,
                place: 1,
                cause: 0,
            }
        );
        Ok(())
    }

    // A void book is declined before short memory, and the memory is as it was.
    fn declines_void(rt: &impl Abort, memory: &mut [u32], steps: usize, void: Void) {
        let book = Book::open(memory, steps);
        let mut out = [7u32; 2];
        assert_eq!(rt; draw(&book, &mut out), Err(DrawFault::Void(void)));
        begins(rt, &out, &[]);
        assert_eq!(rt; draw(&book, &mut out[0..0]), Err(DrawFault::Void(void)));
    }

    #[test]
    fn void_books(rt: HostRuntime) {
        let mut memory = [0u32; 4];
        declines_void(&rt, &mut memory, 0, Void::Steps);
        declines_void(&rt, &mut memory, 33, Void::Steps);
        declines_void(&rt, &mut memory[0..1], 32, Void::Memory);
    }

    #[test]
    fn nets_of_256_places_and_more(rt: HostRuntime) -> Result<(), Fail> {
        let names = letters(b"ABCDEFGHIJKLMNOPQRZ")?;
        let mut out = [7u32; 2595];
        let eight =
            b"A B Z\nB A Z\nC D Z\nD C Z\nE F Z\nF E Z\nG H Z\nH G Z\nI J Z\nJ I Z\nK L Z\nL K Z\nM N Z\nN M Z\nO P Z\nP O Z\n";
        assert_eq!(rt; draw_batch(&rt, &names, eight, &mut out)?, Ok(2595));
        assert_eq!(rt; out[2594], 0x8000_0100);
        let mut none = [7u32; 1];
        let nine =
            b"A B Z\nB A Z\nC D Z\nD C Z\nE F Z\nF E Z\nG H Z\nH G Z\nI J Z\nJ I Z\nK L Z\nL K Z\nM N Z\nN M Z\nO P Z\nP O Z\nQ R Z\nR Q Z\n";
        assert_eq!(rt;
            draw_batch(&rt, &names, nine, &mut none)?,
            Err(DrawFault::TooMany)
        );
        assert_eq!(rt; none[0], 7);
        Ok(())
    }
}
