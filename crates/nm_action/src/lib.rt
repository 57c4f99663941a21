//! Actions of the machine and their replies, by kinds; the turns of an actor; and what is counted of its work.
#![tactic(auto)]

pub mod action;
pub mod kind;
pub mod spent;
pub mod tally;
pub mod turn;

pub use action::{AckTo, Action, Bit, Cell, Event, Reply};
pub use kind::ActionKind;
pub use spent::Spent;
pub use tally::Tally;
pub use turn::{Full, Heard, Lane, Step, Turn};
