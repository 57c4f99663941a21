//! The words of an owned frame: they are copied from a page, or set to 0.
#![tactic(auto)]

pub mod copies;
pub mod copy_run;
pub mod zero_run;
pub mod zeroes;

pub use copies::{Copies, CopiesMade};
pub use copy_run::CopiesRun;
pub use zero_run::ZeroesRun;
pub use zeroes::{Zeroes, ZeroesMade};
