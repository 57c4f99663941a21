//! That permitted steps keep the frame law and the shadow law.
#![tactic(auto)]

pub mod laws;
