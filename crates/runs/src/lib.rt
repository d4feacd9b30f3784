// The comparison of drawn nets, and the law over whole runs of calls.
#![tactic(auto)]

pub mod comparing;

pub use comparing::same_net;
