//! Batches of transactions: up to eight pages are moved to the next faster tier together, and share the two flushes.
#![tactic(auto)]

pub mod batch;
pub mod list;
pub mod run;
pub mod task;

pub use batch::{Batch, BatchAsked, ends_of};
pub use list::PieceList;
pub use run::BatchRun;
pub use task::BatchTask;
