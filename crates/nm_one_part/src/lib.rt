//! Two parts of a run with the same answered turns are the same.
#![tactic(auto)]

pub mod parts;
pub mod results;
