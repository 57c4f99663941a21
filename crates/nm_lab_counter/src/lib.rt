//! The slow accesses of a run, counted while it is made.
#![tactic(auto)]

pub mod counter;

pub use counter::SlowCounter;
