//! The migrator leaves no choice.
#![tactic(auto)]

pub mod sequence;
