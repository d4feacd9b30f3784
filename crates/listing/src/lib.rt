// The listing of a book's net: its steps, places and looping steps by name, as lines of text on a lent page.
#![tactic(auto)]

pub mod faults;
pub mod listing;
mod writing;

pub use faults::PageFault;
pub use listing::list_book;
