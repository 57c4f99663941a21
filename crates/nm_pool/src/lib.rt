//! Free frames: one is taken, counted or put back under the turn of its tier.
#![tactic(auto)]

pub mod job;
pub mod task;

pub use job::{PoolEnd, PoolJob, PoolMade};
pub use task::PoolTask;
