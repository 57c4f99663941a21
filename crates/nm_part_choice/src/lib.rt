//! That the parts of actors' work leave no choice.
#![tactic(auto)]

pub mod parts;
