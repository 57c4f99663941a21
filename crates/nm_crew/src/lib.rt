//! Simulations of any actors: their turns in the order of a schedule, the end of the machine, and what the actors counted.
#![tactic(auto)]

pub mod run;

pub use run::{CrewRun, run_crew};
