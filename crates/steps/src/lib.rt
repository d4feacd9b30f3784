// The ground layer: what a step is, the two kinds of step that cards write, and the roster that numbers the steps of a
// batch.
#![tactic(auto)]

pub mod codes;
pub mod faults;
pub mod kinds;
pub mod names;
pub mod rosters;

pub use codes::Code;
pub use faults::RosterFault;
pub use kinds::Step;
pub use names::Name;
pub use rosters::Roster;
