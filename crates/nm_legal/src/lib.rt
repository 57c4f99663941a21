//! That the accesses of each run are those of a flat memory, whatever is moved meanwhile.
#![tactic(auto)]

pub mod runs;
