//! The command `check`: it judges a journal.
#![tactic(auto)]

pub mod checking;

pub use checking::check_call;
