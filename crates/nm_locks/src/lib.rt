//! That permitted steps keep the lock law.
#![tactic(auto)]

pub mod law;
