//! What runs a demotion, as a part that tells of itself by names.
#![tactic(auto)]

pub mod run;

pub use run::DemoteRun;
