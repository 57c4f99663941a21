//! The processors of a script, and its run with any migrator and reclaimer.
#![tactic(auto)]

pub mod cpus;
pub mod run;

pub use cpus::{cpus_of, results_of};
pub use run::{SimRun, WatchedRun, run_programs};
