ghost use Rattle.std.specs.Prelude.{◌≡◌, ◌≤◌, length, position};
ghost use Rattle.flow.specs.Bits.{bit};
ghost use Rattle.net.specs.Seating.{between};

use crate::points::{fed, feeders};
use flow::StepSet;

// The places of a net, of which there are at most 256.
#[derive(Clone, Copy)]
pub(crate) struct PlaceList<'a> {
    pub(crate) list: &'a [u64],
    ghost few: { length list.now ≤ 256 },
}

// Whether a place is fed by exactly the one set of steps, and feeds exactly the other. The sets are compared as numbers, as
// a place has them.
fn is_between(place: u64, from: StepSet, to: StepSet) -> bool
    ensures { result ≡ between (bit from) (bit to) place }
{
    feeders(place) == u32::from(from) && fed(place) == u32::from(to)
}

impl PlaceList<'_> {
    // The number of the first place that is fed by exactly the one set of steps, and feeds exactly the other.
    pub(crate) fn between(&self, from: StepSet, to: StepSet) -> Option<usize>
        ensures { result ≡ position (between (bit from) (bit to)) self.now.list.now }
    {
        self.list
            .iter()
            .position(|place| is_between(*place, from, to))
    }
}
