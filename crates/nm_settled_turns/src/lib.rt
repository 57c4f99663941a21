//! That a machine is settled where the parts of all actors have ended.
#![tactic(auto)]

pub mod settled;
