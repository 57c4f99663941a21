//! That a migrator that has ended took its marks back, and drained the lanes.
#![tactic(auto)]

pub mod marks;
