//! That permitted steps keep what is said of the words of owned frames.
#![tactic(auto)]

pub mod laws;
