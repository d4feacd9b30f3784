// Trails: what gives the jobs of a batch one after the other, whatever it is written in, and the eraser, which takes one
// step out of any trail.
#![tactic(auto)]

pub mod endings;
pub mod erasers;
pub mod jobs;
pub mod refused;
pub mod sources;

pub use endings::{Cause, TrailFault, TrailStop};
pub use erasers::Eraser;
pub use jobs::Job;
pub use sources::Trail;
