//! The reclaimer leaves no choice.
#![tactic(auto)]

pub mod sequence;
