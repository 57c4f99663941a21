//! A board over a running machine and two shared queues.
#![tactic(auto)]

pub mod board;
pub mod passes;

pub use board::ArenaBoard;
