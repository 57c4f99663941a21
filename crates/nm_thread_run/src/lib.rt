//! The run of a script on threads, on any board.
#![tactic(auto)]

pub mod running;

pub use running::{BoardRun, run_board};
