ghost use Rattle.std.specs.Prelude.{◌≡◌};
ghost use Rattle.groups.specs.Faults.{refusal_of};

use refusals::Refusal;

// Why groups are not listed.
#[derive(Clone, Copy, PartialEq, Eq, Debug)]
pub enum ListFault {
    // there are over 256 of them
    TooMany,
    // there are at most 256, and more than the list has room for
    TooShort,
}

// The five numbers of the fault.
impl From<ListFault> for Refusal {
    ghost from_gives = { λ f r. r ≡ refusal_of f };

    fn from(fault: ListFault) -> Refusal {
        match fault {
            ListFault::TooMany => Refusal::new(10, 4),
            ListFault::TooShort => Refusal::new(11, 4),
        }
    }
}
