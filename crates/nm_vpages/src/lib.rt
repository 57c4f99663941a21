//! Sets of virtual pages.
#![tactic(auto)]

pub mod vpage_set;

pub use vpage_set::VPageSet;
