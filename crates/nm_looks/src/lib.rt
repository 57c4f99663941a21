//! What the table words of a page show, and Softens of them, as parts.
#![tactic(auto)]

pub mod looks;
pub mod run;
pub mod seen;
pub mod softens;

pub use looks::{Looks, LooksMade};
pub use run::{LooksRun, SoftensRun};
pub use seen::Seen;
pub use softens::Softens;
