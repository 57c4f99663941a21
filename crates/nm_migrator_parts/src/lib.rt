//! The larger parts of the migrator's work.
#![tactic(auto)]

pub mod parts;

pub use parts::{BatchWork, MoveWork};
