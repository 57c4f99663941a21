//! The demotion as a part of an actor's work, which is begun once for each demotion.
#![tactic(auto)]

pub mod task;

pub use nm_demote::DemoteEnd;
pub use task::DemoteTask;
