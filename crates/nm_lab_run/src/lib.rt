//! The runs of one script by several policies, side by side.
#![tactic(auto)]

pub mod running;

pub use running::lab_of;
