//! Pieces of work that tell at their end what the actor has drawn.
#![tactic(auto)]

pub mod drawing;

pub use drawing::{Drawing, Drawn};
