//! That a machine is settled where every actor has ended and no mark is left.
#![tactic(auto)]

pub mod settled;
