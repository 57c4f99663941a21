//! The machine as a world of functions, and the groups of facts that every permitted step keeps.
#![tactic(auto)]

pub mod laws;
