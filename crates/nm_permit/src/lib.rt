//! Which actions a view permits.
#![tactic(auto)]

pub mod allowing;
mod permitted;

pub use allowing::allowed;
