// The two bonds of a book, and the lists of their groups: the places of its net, and the steps that run side by side.
#![tactic(auto)]

pub mod faults;
pub mod kinds;
pub mod listing;
pub mod pairing;
pub mod shape;

pub use faults::BondFault;
pub use kinds::{BondKind, Places, Sides};
pub use listing::{list_places, list_sides};
pub use shape::BookBond;

// The bond whose listed groups are the places of a book's net.
pub type PlaceBond = BookBond<Places>;

// The bond whose groups are the steps of a book that run side by side.
pub type SideBond = BookBond<Sides>;
