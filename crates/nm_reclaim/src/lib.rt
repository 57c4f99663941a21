//! Reclaim: shadows in a tier are discarded, page by page, until enough frames of it are free.
#![tactic(auto)]

pub mod run;
pub mod sweep;
pub mod task;

pub use run::SweepRun;
pub use sweep::{ReclaimMade, Sweep, SweepMade, SweepPiece};
pub use task::{ReclaimTask, first_visited};
