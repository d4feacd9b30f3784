ghost use Rattle.std.specs.Prelude.{◌≡◌, ◌^◌, ◌<◌, length};

use crate::rows::StepRelation;
use crate::sets::StepSet;

// The relations of the steps of jobs.
#[derive(Clone, Copy)]
pub struct Relations {
    pub seen: StepSet,
    pub looping: StepSet,
    pub first: StepSet,
    pub last: StepSet,
    // the steps that come right after a step in a held job, and right before it
    pub(crate) follows: StepRelation,
    pub(crate) followed: StepRelation,
    // the steps that come right after a step in a reduced job, and those of them after which it comes right again
    pub(crate) precedes: StepRelation,
    pub(crate) returns: StepRelation,
    // no step is past 31, so that what is asked of such a number is answered as of rows that are empty there
    ghost long: { (length follows ≡ 32) × (length followed ≡ 32) × (length precedes ≡ 32) × (length returns ≡ 32) },
    ghost small: { (seen < 2 ^ 32) × (looping < 2 ^ 32) × (first < 2 ^ 32) × (last < 2 ^ 32) },
}
