//! The steps of a transaction up to its first flush: the page is locked and looked at, a frame of the next faster tier is
//! taken, and the dirty bit of the one table word is cleared.
#![tactic(auto)]

pub mod prepare;
pub mod run;
pub mod worn;

pub use prepare::{Early, Prepare, PrepareMade, PreparePiece, Prepared};
pub use run::PrepareRun;
pub use worn::is_worn;
