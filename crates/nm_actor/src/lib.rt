//! What the actors and the machine under them promise each other: an actor, a chair on which it makes steps and passes pages
//! on, and the board that gives the chairs.
#![tactic(auto)]

pub mod actor;
pub mod board;
pub mod chair;
pub mod drive;

pub use actor::Actor;
pub use board::Board;
pub use chair::{PagePort, Stepper, Tells};
pub use drive::run_part;
