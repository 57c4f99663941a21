//! The rule of the running machine: what its words and the views of its seats say, and that each step keeps it.
#![tactic(auto)]

pub mod known;
pub mod moves;
pub mod standing;

pub use known::{ActorSeat, Knowledge, Progress, RunRule};
pub use moves::{Given, GivenActor, Made, MadeStep, TakenBack};
