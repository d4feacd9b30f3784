ghost use Rattle.std.specs.Prelude.{◌≡◌, ◌≤◌, length};
ghost use Rattle.words.specs.Reading.{Understood};
ghost use Rattle.words.specs.Scan.{from, GivesJob};
ghost use Rattle.words.specs.Sizes.{from_lawful};

use crate::judging::{judge, run_out};
use crate::kinds::Word;
use crate::trail::WordTrail;
use crate::verdicts::Verdict;
use steps::Code;
use trails::{Job, Trail, TrailFault, TrailStop};

// Reads the next job, which starts at a place, into the work memory; none is left at the end word. The memory is lent, so
// that it has room is a clause, which `next` tests.
fn read_job(words: &[u32], at: usize, work: &mut [Code]) -> Result<Option<Job>, TrailFault>
    requires within { at ≤ length words.now }
    requires work { 1000 ≤ length work.old }
    ensures { GivesJob words.now at work.new result }
{
    let mut due: usize = 0;
    let mut had: usize = 0;
    for (i, word) in words[at..].iter().enumerate() {
        match judge(Word::from(*word), due) {
            Verdict::Skip => {}
            Verdict::Open(n) => {
                due = n;
            }
            Verdict::Take(code) => {
                work[had] = code;
                had += 1;
                due -= 1;
            }
            Verdict::Last(code) => {
                work[had] = code;
                return Ok(Some(Job {
                    len: had + 1,
                    after: at + i + 1,
                }));
            }
            Verdict::Close => {
                return Ok(None);
            }
            Verdict::Wrong(cause) => {
                return Err(TrailFault {
                    cause,
                    place: at + i,
                });
            }
        }
    }
    Err(run_out(words.len()))
}

impl<'a> WordTrail<'a> {
    // The trail that a card's words are, read from the first word on.
    pub fn new(words: &'a [u32]) -> WordTrail<'a>
        ensures made { (result.words.now ≡ words.now) × (result.at ≡ 0) }
        ensures reading { Understood words.now (from words.now 0).jobs (from words.now 0).ending }
    {
        WordTrail { words, at: 0 }
    }
}

// The lines of `next` are those of a text trail: one type over a trait of layouts would tell the contract of `Trail` twice.
impl<'a> Trail for WordTrail<'a> {
    type Step = Code;

    ghost jobs = { λ t. (from t.words.now t.at).jobs };

    ghost lawful = { λ t. from_lawful t.words.now t.at t.ok.1 };

    ghost ending = { λ t. (from t.words.now t.at).ending };

    // Inlined, since a job of one event costs little more than the call.
    #[inline]
    fn next(&mut self, work: &mut [Code]) -> Result<Option<usize>, TrailStop> {
        if work.len() < 1000 {
            return Err(TrailStop::ShortWork);
        }
        let Some(job) = read_job(self.words, self.at, work)? else {
            return Ok(None);
        };
        self.at = job.after;
        Ok(Some(job.len))
    }
}
