//! That a processor counts its faults where its own list ends them.
#![tactic(auto)]

pub mod counts;
