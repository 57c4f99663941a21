//! When a run of a schedule ends settled.
#![tactic(auto)]

pub mod ends;
