ghost use Rattle.std.specs.Prelude.{◌≡◌, ◌≤◌, length, take};
ghost use Rattle.trails.specs.Erased.{erased, without, erased_lawful, ErasedNext};

use crate::endings::TrailStop;
use crate::sources::Trail;
use steps::Step;

// The trail below with one step taken out of every job.
#[derive(Drop)]
pub struct Eraser<T: Trail> {
    below: T,
    step: T::Step,
}

impl<T: Trail> Eraser<T> {
    pub fn new(below: T, step: T::Step) -> Self
        ensures { (result.below ≡ below) × (result.step ≡ step) }
    {
        Eraser { below, step }
    }
}

// Takes every `step` out of the first n, and answers how many are left at the start.
fn take_out<S: Step>(work: &mut [S], n: usize, step: &S) -> usize
    requires { n ≤ length work.old }
    ensures { (result ≤ n) × (take result work.new ≡ without S.cmp step.now (take n work.old)) }
{
    let mut left = 0;
    // An index, since what is kept moves ahead in the memory that it is read from.
    for i in 0..n {
        let s = work[i];
        if s != *step {
            work[left] = s;
            left += 1;
        }
    }
    left
}

// The next job below without the step, which may leave none of it.
fn erase_next<T: Trail>(
    below: &mut T,
    step: &T::Step,
    work: &mut [T::Step],
) -> Result<Option<usize>, TrailStop>
    ensures { ErasedNext T.Step.cmp step.now (T.Trail.jobs below.old) (T.Trail.ending below.old) (T.Trail.jobs below.new) (T.Trail.ending below.new) work.old work.new result }
{
    let Some(n) = below.next(work)? else {
        return Ok(None);
    };
    Ok(Some(take_out(work, n, step)))
}

impl<T: Trail> Trail for Eraser<T> {
    type Step = T::Step;

    ghost jobs = { λ t. erased T.Step.cmp t.step (T.Trail.jobs t.below) };

    ghost ending = { λ t. T.Trail.ending t.below };

    ghost lawful = { λ t. erased_lawful T.Step.cmp t.step (T.Trail.jobs t.below) (T.Trail.lawful t.below) };

    fn next(&mut self, work: &mut [T::Step]) -> Result<Option<usize>, TrailStop> {
        loop {
            match erase_next(&mut self.below, &self.step, work)? {
                // a job that is emptied is none
                Some(0) => {}
                next => return Ok(next),
            }
        }
    }
}
