//! Scripts: what a run is given, the one text of each script, and the reading of texts.
#![tactic(auto)]

mod draft;
mod fault;
mod fields;
mod item;
pub mod limits;
mod parsing;
mod printing;
mod reading;
pub mod schedule;
pub mod script;

pub use fault::{ScriptFault, ScriptRefusal};
pub use limits::{MOST_FRAMES, MOST_TURNS, bounds_of_a_script};
pub use parsing::{one_reading, parse};
pub use printing::print;
pub use schedule::{PlanItem, PlanItems, Schedule};
pub use script::{Line, Script};
