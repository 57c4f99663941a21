//! The parts of an actor's work: what a part promises to whoever runs it.
#![tactic(auto)]

pub mod part;
pub mod piece;

pub use part::Part;
pub use piece::Piece;
