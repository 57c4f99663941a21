//! That the reply of each permitted step fits.
#![tactic(auto)]

pub mod reply;
