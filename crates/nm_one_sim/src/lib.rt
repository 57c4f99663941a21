//! A script has one run.
#![tactic(auto)]

pub mod single;
