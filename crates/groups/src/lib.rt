// The largest groups of a bond: sets of points in which every point is paired with itself and with every other, and to
// which no point can be added. A list of them asks for those that touch two marks.
#![tactic(auto)]

pub mod bonds;
pub mod faults;
mod found;
pub mod listing;
mod marks;
mod rows;
mod searching;
mod sorting;

pub use bonds::Bond;
pub use faults::ListFault;
pub use listing::list_groups;
