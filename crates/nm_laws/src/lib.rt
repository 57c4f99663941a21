//! The facts of every run and of every permitted step: the five facts, the roles of frames, any list of events followed as far
//! as it is a run, and one step with the laws after it.
#![tactic(auto)]

pub mod facts;
pub mod lists;
pub mod roles;
pub mod steps;

pub use lists::{RunEnd, run_list};
pub use steps::{all_laws, cache_law, copy_law, frame_law, lock_law, shadow_law};
