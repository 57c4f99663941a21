//! Simulations of scripts.
#![tactic(auto)]

pub mod simulation;

pub use nm_play::{Keep, Silent, Watcher};
pub use nm_programs::{SimRun, WatchedRun};
pub use nm_schedule::{SimAct, SimTurn};
pub use simulation::{simulate, simulate_with};
