ghost use Rattle.std.specs.Prelude.{◌≡◌, false, ◌↔◌};
ghost use Rattle.flow.specs.Bits.{bit};
ghost use Rattle.facts.specs.Compared.{SameSteps};

use flow::StepSet;

// Whether two sets differ in some step. As numbers, since a set tells other crates no bound.
pub(crate) fn sets_differ(a: StepSet, b: StepSet) -> bool
    ensures { (result ≡ false) ↔ SameSteps (bit a) (bit b) }
{
    u32::from(a) != u32::from(b)
}
