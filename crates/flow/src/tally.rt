use crate::rows::StepRelation;
use crate::sets::StepSet;

// What is noted of jobs as their words are read.
#[derive(Clone, Copy, Default)]
pub(crate) struct Tally {
    pub(crate) seen: StepSet,
    // the steps that come twice running
    pub(crate) looping: StepSet,
    pub(crate) first: StepSet,
    // the last steps of the jobs that have ended
    pub(crate) last: StepSet,
    // the steps that come right before a step, and those between it and its coming again
    pub(crate) followed: StepRelation,
    pub(crate) returns: StepRelation,
    // the latest step of the job that is being read, and the one before that: sets of at most one, since they are added to
    // rows as they are and so have no step past 31
    pub(crate) latest: StepSet,
    pub(crate) earlier: StepSet,
}
