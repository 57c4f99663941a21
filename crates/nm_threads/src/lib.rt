//! Actors that run at their chairs, each on a thread of its own.
#![tactic(auto)]

pub mod desks;
pub mod driving;
pub mod emptied;
pub mod runs;

pub use desks::{Desk, run_actors};
pub use driving::drive;
pub use runs::{Runs, run_all};
