ghost use Rattle.std.specs.Prelude.{◌≡◌};
ghost use Rattle.net.specs.declared.faults.DrawFault.TheVariants.{Void as OfVoid};
ghost use Rattle.listing.specs.declared.faults.PageFault.TheVariants.{Draw as OfDraw, Roster as OfRoster};
ghost use Rattle.listing.specs.Faults.{page_refusal};

use book::Void;
use net::DrawFault;
use refusals::Refusal;
use steps::RosterFault;

// Why a book is not listed. A page that is too short is told as a net's memory that is too short.
#[derive(Clone, Copy, PartialEq, Eq, Debug)]
pub enum PageFault {
    Roster(RosterFault),
    Draw(DrawFault),
}

impl From<RosterFault> for PageFault {
    ghost from_gives = { λ f r. r ≡ OfRoster f };

    fn from(fault: RosterFault) -> PageFault {
        PageFault::Roster(fault)
    }
}

impl From<DrawFault> for PageFault {
    ghost from_gives = { λ f r. r ≡ OfDraw f };

    fn from(fault: DrawFault) -> PageFault {
        PageFault::Draw(fault)
    }
}

impl From<Void> for PageFault {
    ghost from_gives = { λ v r. r ≡ OfDraw (OfVoid v) };

    fn from(void: Void) -> PageFault {
        PageFault::Draw(DrawFault::Void(void))
    }
}

// The five numbers of the refusal.
impl From<PageFault> for Refusal {
    ghost from_gives = { λ f r. r ≡ page_refusal f };

    fn from(fault: PageFault) -> Refusal {
        match fault {
            PageFault::Roster(fault) => Refusal::from(fault),
            PageFault::Draw(fault) => Refusal::from(fault),
        }
    }
}
