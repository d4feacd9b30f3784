ghost use Rattle.std.specs.Prelude.{◌≡◌};
ghost use Rattle.steps.specs.Faults.{refusal_of};

use refusals::Refusal;

// What a roster declines.
#[derive(Clone, Copy, PartialEq, Eq, Debug)]
pub enum RosterFault {
    // not strictly ascending, or not of the length that is asked for
    Unfit,
    // a step that is not on the roster, with the place of the first such event in its job
    Unlisted { place: usize },
}

// The five numbers of the fault.
impl From<RosterFault> for Refusal {
    ghost from_gives = { λ f r. r ≡ refusal_of f };

    fn from(fault: RosterFault) -> Refusal {
        match fault {
            RosterFault::Unfit => Refusal::new(3, 2),
            RosterFault::Unlisted { place } => Refusal {
                place,
                ..Refusal::new(5, 2)
            },
        }
    }
}
