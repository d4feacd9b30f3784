ghost use Rattle.std.specs.Prelude.{◌≡◌, length, MatchResult};
ghost use Rattle.groups.specs.Sorting.{Added};

use crate::faults::ListFault;
use arrayvec::ArrayVec;

// The groups that a list can have.
pub(crate) const MOST: usize = 256;

// The groups that the search has come to, no two equal.
pub(crate) type Found = ArrayVec<u64, MOST>;

// One more group. It is one too many where 256 others are there, and only there.
pub(crate) fn add(found: &mut Found, group: u64) -> Result<(), ListFault>
    ensures { MatchResult result (λ _. Added found.old.items found.new.items group) (λ e. (e ≡ ListFault.TooMany) × (length found.old.items ≡ 256) × (found.new ≡ found.old)) }
{
    found.try_push(group).map_err(|_| ListFault::TooMany)
}
