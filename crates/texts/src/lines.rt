ghost use Rattle.std.specs.Prelude.{◌≡◌, ◌≤◌, length};
ghost use Rattle.texts.specs.Scan.{from, GivesLine};
ghost use Rattle.texts.specs.Reading.{Understood};
ghost use Rattle.texts.specs.Sizes.{from_lawful};

use crate::judging::judge;
use crate::lexers::Lexer;
use crate::trail::TextTrail;
use crate::verdicts::Verdict;
use steps::Name;
use trails::{Job, Trail, TrailFault, TrailStop};

// Reads the line at an offset at the start of the work memory; none is left at the end. The memory is lent, so that it has
// room is a clause, which `next` tests.
fn read_line(text: &[u8], at: usize, work: &mut [Name]) -> Result<Option<Job>, TrailFault>
    requires within { at ≤ length text.now }
    requires work { 1000 ≤ length work.old }
    ensures { GivesLine text.now at work.new result }
{
    let mut lexer = Lexer::new(text, at);
    let mut len = 0;
    let mut due = true;
    loop {
        match judge(lexer.token(), due, len) {
            Verdict::Take(name) => {
                work[len] = name;
                len += 1;
                due = false;
            }
            Verdict::Gap => due = true,
            Verdict::Close => return Ok(Some(Job {
                len,
                after: lexer.offset(),
            })),
            Verdict::Over => return Ok(None),
            Verdict::Wrong(fault) => return Err(fault),
        }
    }
}

impl<'a> TextTrail<'a> {
    // The trail that a text is, read from its first byte on.
    pub fn new(text: &'a [u8]) -> TextTrail<'a>
        ensures made { (result.text.now ≡ text.now) × (result.at ≡ 0) }
        ensures reading { Understood text.now (from text.now 0).jobs (from text.now 0).ending }
    {
        TextTrail { text, at: 0 }
    }
}

// The lines of `next` are those of a word trail: one type over a trait of layouts would tell the contract of `Trail` twice.
impl<'a> Trail for TextTrail<'a> {
    type Step = Name;

    ghost jobs = { λ t. (from t.text.now t.at).jobs };

    ghost ending = { λ t. (from t.text.now t.at).ending };

    ghost lawful = { λ t. from_lawful t.text.now t.at t.ok.1 };

    fn next(&mut self, work: &mut [Name]) -> Result<Option<usize>, TrailStop> {
        if work.len() < 1000 {
            return Err(TrailStop::ShortWork);
        }
        let Some(line) = read_line(self.text, self.at, work)? else {
            return Ok(None);
        };
        self.at = line.after;
        Ok(Some(line.len))
    }
}
