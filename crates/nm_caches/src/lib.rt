//! That permitted steps keep the cache law.
#![tactic(auto)]

pub mod laws;
