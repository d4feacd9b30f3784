ghost use Rattle.std.specs.Prelude.{◌≡◌};
ghost use Rattle.net.specs.declared.faults.DrawFault.TheVariants.{Void as OfVoid, Unseated as OfUnseated};
ghost use Rattle.net.specs.Faults.{draw_refusal, of_bond};

use bonds::BondFault;
use book::Void;
use groups::ListFault;
use refusals::Refusal;

// Why a net is not drawn.
#[derive(Clone, Copy, PartialEq, Eq, Debug)]
pub enum DrawFault {
    Void(Void),
    // there are over 256 places
    TooMany,
    // a looping step sits on no place, and no lower one does
    Unseated { step: usize },
    // the net has more words than the memory
    TooShort,
}

impl From<Void> for DrawFault {
    ghost from_gives = { λ v r. r ≡ OfVoid v };

    fn from(void: Void) -> DrawFault {
        DrawFault::Void(void)
    }
}

// Where the list of a net's places declines, the net is declined for the same reason.
impl From<BondFault> for DrawFault {
    ghost from_gives = { λ f r. r ≡ of_bond f };

    fn from(fault: BondFault) -> DrawFault {
        match fault {
            BondFault::Void(void) => DrawFault::Void(void),
            BondFault::List(ListFault::TooMany) => DrawFault::TooMany,
            BondFault::List(ListFault::TooShort) => DrawFault::TooShort,
        }
    }
}

// The lowest looping step that sits on no place.
#[derive(Clone, Copy, Debug)]
pub(crate) struct Unseated {
    pub(crate) step: usize,
}

impl From<Unseated> for DrawFault {
    ghost from_gives = { λ f r. r ≡ OfUnseated f.step };

    fn from(fault: Unseated) -> DrawFault {
        DrawFault::Unseated { step: fault.step }
    }
}

// The five numbers of the refusal.
impl From<DrawFault> for Refusal {
    ghost from_gives = { λ f r. r ≡ draw_refusal f };

    fn from(fault: DrawFault) -> Refusal {
        match fault {
            DrawFault::Void(void) => Refusal::from(void),
            DrawFault::TooMany => Refusal::new(10, 4),
            DrawFault::Unseated { step } => Refusal {
                place: step,
                ..Refusal::new(9, 4)
            },
            DrawFault::TooShort => Refusal::new(11, 4),
        }
    }
}
