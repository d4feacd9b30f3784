use book::{FeedFault, Void};
use refusals::Refusal;
use std::fmt;
use steps::RosterFault;
use trails::{Cause, TrailStop};

// Why the account of a batch does not come to its end.
#[derive(Clone, Copy, Debug)]
pub(crate) enum Declined {
    // the text is longer than any that is taken
    TooLong,
    // no line is there for the roster
    NoRoster,
    // the roster's line cannot be read
    Trail(TrailStop),
    Feed(FeedFault),
}

impl From<Declined> for Refusal {
    fn from(declined: Declined) -> Refusal {
        match declined {
            Declined::TooLong => Refusal::from(Void::Memory),
            Declined::NoRoster => Refusal::from(Void::Steps),
            Declined::Trail(stop) => Refusal::from(stop),
            Declined::Feed(fault) => Refusal::from(fault),
        }
    }
}

// A fault of a text in words.
fn why_unread(cause: Cause) -> &'static str {
    match cause {
        Cause::JobSize => "a line has over 1000 names",
        Cause::OddByte => "a byte is neither of A-Z, 0-9 and _, nor a space or a line end",
        Cause::NinthByte => "a name has over 8 bytes",
        Cause::NameDue => "a space or a line end stands where a name is due",
        _ => "the input ends inside a line",
    }
}

// In words.
impl fmt::Display for Declined {
    fn fmt<W: fmt::Write>(&self, f: &mut fmt::Formatter<W>) -> fmt::Result {
        f.write_str(match *self {
            Declined::TooLong | Declined::Feed(FeedFault::Void(Void::Memory)) => {
                "the input is over 65536 bytes"
            }
            Declined::NoRoster | Declined::Feed(FeedFault::Void(Void::Steps)) => {
                "the roster has no step, or over 32"
            }
            Declined::Feed(FeedFault::Roster { fault, .. }) => match fault {
                RosterFault::Unfit => "the roster is not strictly ascending",
                RosterFault::Unlisted { .. } => {
                    "a step of a job is not on the roster; the place is its event"
                }
            },
            Declined::Feed(FeedFault::Room { .. }) => "the book has no room for a new job",
            Declined::Trail(TrailStop::Fault(fault)) => why_unread(fault.cause),
            Declined::Feed(FeedFault::Trail { fault, .. }) => why_unread(fault.cause),
            Declined::Trail(TrailStop::ShortWork) | Declined::Feed(FeedFault::ShortWork) => {
                "the call is declined"
            }
        })
    }
}
