ghost use Rattle.std.specs.Prelude.{◌≡◌};
ghost use Rattle.trails.specs.Faults.{cause_number, fault_refusal, stop_refusal};

use crate::endings::{Cause, TrailFault, TrailStop};
use refusals::Refusal;

// The number that a refusal has for the cause.
impl From<Cause> for u8 {
    ghost from_gives = { λ c r. r ≡ cause_number c };

    fn from(cause: Cause) -> u8 {
        match cause {
            Cause::OutOfTurn => 1,
            Cause::JobSize => 2,
            Cause::WordsRunOut => 3,
            Cause::EndBits => 4,
            Cause::OddByte => 5,
            Cause::NinthByte => 6,
            Cause::NameDue => 7,
            Cause::CutLine => 8,
        }
    }
}

// The five numbers of the fault.
impl From<TrailFault> for Refusal {
    ghost from_gives = { λ f r. r ≡ fault_refusal f };

    fn from(fault: TrailFault) -> Refusal {
        Refusal {
            place: fault.place,
            cause: u8::from(fault.cause),
            ..Refusal::new(8, 1)
        }
    }
}

// The five numbers of the refusal.
impl From<TrailStop> for Refusal {
    ghost from_gives = { λ s r. r ≡ stop_refusal s };

    fn from(stop: TrailStop) -> Refusal {
        match stop {
            TrailStop::ShortWork => Refusal::new(7, 3),
            TrailStop::Fault(fault) => Refusal::from(fault),
        }
    }
}
