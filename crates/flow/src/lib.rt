// The relations of the steps of a book's jobs, as rows of bits.
#![tactic(auto)]

pub mod asking;
pub mod members;
mod noting;
pub mod reading;
pub mod relations;
mod rows;
pub mod sets;
mod tally;

pub use members::Members;
pub use relations::Relations;
pub use sets::StepSet;
