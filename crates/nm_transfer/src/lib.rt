//! A page is taken out of the table, gets a new home, and is mapped to it.
#![tactic(auto)]

pub mod run;
pub mod transfer;
pub mod words;

pub use run::TransferRun;
pub use transfer::{Rights, Source, Transfer, TransferMade, TransferPiece};
pub use words::TakenWords;
