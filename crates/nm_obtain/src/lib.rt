//! A frame of a tier is sought inside an operation on a page: shadows are reclaimed where none is free.
#![tactic(auto)]

pub mod freed;
pub mod obtain;
pub mod run;

pub use freed::FreedCount;
pub use obtain::{Obtain, ObtainMade, ObtainPiece, Obtained};
pub use run::ObtainRun;
