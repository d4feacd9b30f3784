// The book: the jobs of a batch as step numbers, in memory that the caller lends.
#![tactic(auto)]

mod entering;
pub mod entries;
pub mod faults;
mod feeding;
mod finding;
mod keeping;
mod opening;
pub mod shape;

pub use entries::Entry;
pub use faults::{EnterFault, FeedFault, NoRoom, Void};
pub use shape::Book;
