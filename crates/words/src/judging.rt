ghost use Rattle.std.specs.Prelude.{◌≡◌};
ghost use Rattle.words.specs.Scan.{judge_of, ran_out};

use crate::kinds::Word;
use crate::verdicts::Verdict;
use trails::{Cause, TrailFault};

// The verdict on a word where so many events are due; none are due between two jobs.
pub(crate) fn judge(word: Word, due: usize) -> Verdict
    ensures { result ≡ judge_of word due }
{
    match word {
        Word::Filler => Verdict::Skip,
        Word::Head(n) => {
            if due != 0 {
                Verdict::Wrong(Cause::OutOfTurn)
            } else if n < 1 || n > 1000 {
                Verdict::Wrong(Cause::JobSize)
            } else {
                Verdict::Open(n as usize)
            }
        }
        Word::Stop(low) => {
            if due != 0 {
                Verdict::Wrong(Cause::OutOfTurn)
            } else if low != 0 {
                Verdict::Wrong(Cause::EndBits)
            } else {
                Verdict::Close
            }
        }
        Word::Event(code) => {
            if due == 0 {
                Verdict::Wrong(Cause::OutOfTurn)
            } else if due == 1 {
                Verdict::Last(code)
            } else {
                Verdict::Take(code)
            }
        }
    }
}

// How a trail ends whose words run out, after so many.
pub(crate) fn run_out(len: usize) -> TrailFault
    ensures { result ≡ ran_out len }
{
    TrailFault {
        cause: Cause::WordsRunOut,
        place: len,
    }
}
