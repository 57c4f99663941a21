//! What is true of each run that threads make of a script.
#![tactic(auto)]

pub mod holding;

pub use holding::each_run_of_threads_holds;
