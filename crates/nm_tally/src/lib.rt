//! What is counted of the events of an actor's own list.
#![tactic(auto)]

pub mod counter;

pub use counter::Counter;
