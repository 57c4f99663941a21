//! The run of a script is the only one.
#![tactic(auto)]

pub mod script;
