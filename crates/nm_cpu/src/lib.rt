//! A processor that makes the lines of its program, as an actor.
#![tactic(auto)]

pub mod actor;
pub mod line;
pub mod made;

pub use actor::{CpuActor, Processor};
pub use made::CpuMade;
