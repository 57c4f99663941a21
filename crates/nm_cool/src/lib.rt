//! A candidate that is not hot is cooled.
#![tactic(auto)]

pub mod cool;
pub mod run;

pub use cool::{Cool, CoolEnd, CoolPiece, Cooled};
pub use run::CoolRun;
