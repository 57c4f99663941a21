//! Schedules: which actor makes the next turn of a simulation.
#![tactic(auto)]

mod flush;
pub mod limits;
pub mod picker;
pub mod turn;

pub use limits::{MOST_CANDIDATES, MOST_ITEM_TURNS, bounds_of_a_simulation};
pub use picker::Picker;
pub use turn::{Played, SimAct, SimTurn};
