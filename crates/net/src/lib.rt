// The net of a book: its steps, its places, and the steps that loop on them, as words in lent memory.
#![tactic(auto)]

pub mod drawing;
pub mod faults;
pub mod kinds;
mod places;
mod plans;
mod points;
mod seating;
mod writing;

pub use drawing::draw;
pub use faults::DrawFault;
pub use kinds::Kind;
