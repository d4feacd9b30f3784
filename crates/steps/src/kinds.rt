ghost use Rattle.std.specs.Prelude.{refl};
ghost use Rattle.std.specs.Ordering.{as_partial_cmp};
ghost use Rattle.steps.specs.Orders.{OrderLaws};
ghost use Rattle.steps.specs.Kinds.{code_order, name_order};
ghost use Rattle.steps.specs.Alike.{code_laws, code_total, code_ties, code_partial, name_laws, name_total, name_ties, name_partial};

use crate::codes::Code;
use crate::names::Name;
use std::cmp::Ordering;

// A kind of step: any plain type with a strict order of its values, whose law each implementation owes.
pub trait Step: Copy + Ord {
    ghost lawful: { OrderLaws Self.cmp };
}

impl Step for Code {
    ghost lawful = { code_laws };
}

impl Step for Name {
    ghost lawful = { name_laws };
}

// Codes are ordered by unit, then by code. Written, so that the contract says so.
impl Ord for Code {
    ghost cmp = { code_order };

    ghost total = { code_total };

    ghost matches_partial_cmp = { λ x y. refl };

    ghost matches_eq = { code_ties };

    fn cmp(&self, other: &Code) -> Ordering {
        self.unit()
            .cmp(&other.unit())
            .then(self.code().cmp(&other.code()))
    }
}

impl PartialOrd for Code {
    ghost partial_cmp = { as_partial_cmp code_order };

    ghost laws = { code_partial };

    fn partial_cmp(&self, other: &Code) -> Option<Ordering> {
        Some(Code::cmp(self, other))
    }
}

// Names are ordered by their texts. Written, so that the contract says so: a derived order would go by the padding too.
impl Ord for Name {
    ghost cmp = { name_order };

    ghost total = { name_total };

    ghost matches_partial_cmp = { λ x y. refl };

    ghost matches_eq = { name_ties };

    fn cmp(&self, other: &Name) -> Ordering {
        self.text().cmp(other.text())
    }
}

impl PartialOrd for Name {
    ghost partial_cmp = { as_partial_cmp name_order };

    ghost laws = { name_partial };

    fn partial_cmp(&self, other: &Name) -> Option<Ordering> {
        Some(self.cmp(other))
    }
}
