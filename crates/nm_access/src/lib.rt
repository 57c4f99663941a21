//! An access of a processor: with what comes before it, until a cached translation serves.
#![tactic(auto)]

pub mod access;
pub mod faults;
pub mod made;

pub use access::{Access, AccessStep};
pub use faults::Faults;
pub use made::{AccessMade, Touch};
