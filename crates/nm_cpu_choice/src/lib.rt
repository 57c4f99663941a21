//! Processors leave no choice.
#![tactic(auto)]

pub mod programs;
