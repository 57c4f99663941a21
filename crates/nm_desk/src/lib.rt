//! The desk of an actor: what a part of its work sees of its view; and lists of a part with what its actor does while the
//! part waits.
#![tactic(auto)]

pub mod laws;
