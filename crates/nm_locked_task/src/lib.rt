//! The locked move as a part that is begun again and again.
#![tactic(auto)]

pub mod task;

pub use nm_locked::LockedEnd;
pub use task::LockedTask;
