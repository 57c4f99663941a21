//! Actors that do one task after the other, as their routine says.
#![tactic(auto)]

pub mod routine;
pub mod worker;

pub use routine::{Ended, Resuming, Routine, Task};
pub use worker::Worker;
