use steps::Code;
use trails::Cause;

// What the reader does with a word.
#[derive(Clone, Copy)]
pub enum Verdict {
    // goes on
    Skip,
    // opens a job of so many events
    Open(usize),
    // takes an event that is not the job's last
    Take(Code),
    // takes the last event of the job
    Last(Code),
    // ends the trail
    Close,
    // stops at a fault
    Wrong(Cause),
}
