ghost use Rattle.std.specs.Prelude.{List};
ghost use Rattle.trails.specs.Jobs.{Ending, Lawful, Next};

use crate::endings::TrailStop;
use steps::Step;

// What gives jobs, one each time that it is asked.
pub trait Trail {
    // The kind of step that its jobs have.
    type Step: Step;

    // The jobs still to come.
    ghost jobs: { Self → List (List Self.Step) };

    // How it ends after them.
    ghost ending: { Self → Ending };

    // Puts the next job at the start of the work memory and answers its length, or none once it has come to its end, where
    // it then stays.
    fn next(&mut self, work: &mut [Self::Step]) -> Result<Option<usize>, TrailStop>
        ensures { Next (jobs self.old) (ending self.old) (jobs self.new) (ending self.new) work.old work.new result };

    // Each job has 1 to 1,000 events, and there are fewer than 2^64 jobs.
    ghost lawful: { (t : Self) → Lawful (jobs t) };
}
