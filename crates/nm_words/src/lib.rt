//! The words of the machine by name, and the exchanges on them.
#![tactic(auto)]

pub mod exchanges;
pub mod names;
pub mod store;

pub use exchanges::Change;
pub use names::{Where, is_place};
pub use store::Words;
