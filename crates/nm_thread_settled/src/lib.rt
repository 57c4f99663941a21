//! When a run on threads ends settled.
#![tactic(auto)]

pub mod histories;
pub mod settled;
