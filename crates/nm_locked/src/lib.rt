//! The locked move: a page that several virtual pages map is moved to a faster tier while it is out of the table.
#![tactic(auto)]

pub mod choose;
pub mod choose_run;
pub mod locked;

pub use choose::{Choose, ChooseMade, ChoosePiece, Chosen, Early};
pub use choose_run::ChooseRun;
pub use locked::{Locked, LockedEnd, LockedOver, LockedPiece};
