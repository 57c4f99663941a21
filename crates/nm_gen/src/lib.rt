//! Scripts that are generated from a number.
#![tactic(auto)]

pub mod random;

pub use random::{generate, is_script};
