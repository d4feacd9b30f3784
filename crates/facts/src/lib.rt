// Which of the five facts, on which nets rest, differ between two books.
#![tactic(auto)]

mod both;
pub mod comparing;
mod feeding;
mod kin;
mod looping;
mod sets;
pub mod shape;

pub use comparing::differences;
pub use shape::Differences;
