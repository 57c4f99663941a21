//! That a reclaimer makes no Mark.
#![tactic(auto)]

pub mod marks;
