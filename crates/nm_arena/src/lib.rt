//! The running machine: one list of words that threads share, and the seats on which its actors step. Each step is one
//! exchange.
#![tactic(auto)]

pub mod arena;
mod exchanging;
mod layout;
mod reading;
pub mod seat;

pub use arena::Arena;
pub use seat::Seat;
