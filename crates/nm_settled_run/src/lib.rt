//! When the run of a script ends settled.
#![tactic(auto)]

pub mod settled;
