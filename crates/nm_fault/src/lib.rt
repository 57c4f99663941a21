//! Page faults as a part of an actor's work.
#![tactic(auto)]

pub mod run;
pub mod task;
pub mod wait;

pub use nm_shadow_fault::FaultEnd;
pub use task::FaultTask;
pub use wait::a_search_made_again_waits;
