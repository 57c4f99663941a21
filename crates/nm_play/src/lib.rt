//! Simulations: the actors of a machine make their turns on one thread, in the order of a schedule.
#![tactic(auto)]

pub mod crew;
mod play;
pub mod run;
pub mod watcher;

pub use crew::{Actors, Crew};
pub use run::{Run, run_schedule};
pub use watcher::{Keep, Silent, Watcher};
