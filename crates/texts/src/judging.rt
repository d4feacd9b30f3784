ghost use Rattle.std.specs.Prelude.{◌≡◌, ◌<◌, ◌≤◌};
ghost use Rattle.steps.specs.Ranges.{IsName};
ghost use Rattle.trails.specs.declared.endings.Cause.TheVariants.{JobSize};
ghost use Rattle.texts.specs.Verdicts.{Faults, Judged, Spelled, Takes};

use crate::tokens::Token;
use crate::verdicts::Verdict;
use steps::Name;
use trails::{Cause, TrailFault};

fn fault(cause: Cause, place: usize) -> Verdict
    ensures { Faults result cause place }
{
    Verdict::Wrong(TrailFault { cause, place })
}

// A name token where a name is due.
fn take_name(at: usize, bytes: &[u8], len: usize) -> Verdict
    requires { IsName bytes.now }
    ensures { (len ≡ 1000 → Faults result JobSize at) × (len < 1000 → Takes result bytes.now) }
{
    if len == 1000 {
        return fault(Cause::JobSize, at);
    }
    Verdict::Take(Name::new(bytes).unwrap())
}

// The verdict on a token, with so many names in the line so far, and whether a name is due.
pub(crate) fn judge(token: Token<'_>, due: bool, len: usize) -> Verdict
    requires spelled { Spelled token }
    requires len_bound { len ≤ 1000 }
    ensures { Judged token.entry due len result }
{
    match token {
        Token::Name { at, bytes } if due => take_name(at, bytes, len),
        Token::Name { at, .. } => fault(Cause::NinthByte, at),
        Token::Space { at } if due => fault(Cause::NameDue, at),
        Token::Space { .. } => Verdict::Gap,
        Token::LineEnd { at } if due => fault(Cause::NameDue, at),
        Token::LineEnd { .. } => Verdict::Close,
        Token::Odd { at } => fault(Cause::OddByte, at),
        Token::End { .. } if due && len == 0 => Verdict::Over,
        Token::End { at } => fault(Cause::CutLine, at),
    }
}
