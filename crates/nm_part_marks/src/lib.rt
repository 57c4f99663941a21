//! Which Marks the parts of actors' work make.
#![tactic(auto)]

pub mod parts;
