//! That no mark is left where every actor took back what it marked.
#![tactic(auto)]

pub mod unmarked;
