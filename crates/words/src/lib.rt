// The word trail: jobs of codes in 32-bit words, as early cards write them.
#![tactic(auto)]

mod judging;
mod kinds;
pub mod reader;
mod split;
pub mod trail;
mod verdicts;

pub use trail::WordTrail;
