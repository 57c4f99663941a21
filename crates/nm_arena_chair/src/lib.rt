//! The chair of an actor over a running machine and two shared queues.
#![tactic(auto)]

pub mod chair;
pub mod lane;
pub mod name;
pub mod place;

pub use chair::ArenaChair;
pub use name::ArenaName;
pub use place::Place;
