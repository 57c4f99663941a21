//! The run of a script on threads over a machine that they share.
#![tactic(auto)]

pub mod running;

pub use running::{ArenaRun, run_on_arena};
