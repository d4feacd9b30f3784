ghost use Rattle.std.specs.Prelude.{◌≡◌};
ghost use Rattle.bonds.specs.declared.faults.BondFault.TheVariants.{Void as OfVoid, List as OfList};
ghost use Rattle.bonds.specs.Faults.{bond_refusal};

use book::Void;
use groups::ListFault;
use refusals::Refusal;

// Why the groups of a book's bond are not listed.
#[derive(Clone, Copy, PartialEq, Eq, Debug)]
pub enum BondFault {
    Void(Void),
    List(ListFault),
}

impl From<Void> for BondFault {
    ghost from_gives = { λ v r. r ≡ OfVoid v };

    fn from(void: Void) -> BondFault {
        BondFault::Void(void)
    }
}

impl From<ListFault> for BondFault {
    ghost from_gives = { λ f r. r ≡ OfList f };

    fn from(fault: ListFault) -> BondFault {
        BondFault::List(fault)
    }
}

// The five numbers of the refusal.
impl From<BondFault> for Refusal {
    ghost from_gives = { λ f r. r ≡ bond_refusal f };

    fn from(fault: BondFault) -> Refusal {
        match fault {
            BondFault::Void(void) => Refusal::from(void),
            BondFault::List(fault) => Refusal::from(fault),
        }
    }
}
