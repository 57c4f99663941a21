//! The demotion: a page is moved to a slower tier, by its shadow where it has one, and else by a copy.
#![tactic(auto)]

pub mod demote;
pub mod select;
pub mod select_task;

pub use demote::{Demote, DemoteEnd, DemoteOver, DemotePiece};
pub use select::{DemoteMade, Early, Select, SelectPiece, Selected};
pub use select_task::SelectTask;
