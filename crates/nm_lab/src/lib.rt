//! The policy lab: the slow accesses of a run, a script with another retry, and the table of the runs of one script with
//! several retries.
#![tactic(auto)]

pub mod retry;
pub mod rows;
pub mod slow;
pub mod table;

pub use retry::with_retry;
pub use rows::{LabRow, best};
pub use slow::{slow_access, slow_accesses};
pub use table::print_lab;
