//! Shootdowns: the number of bumps is drawn, and each processor acknowledges it.
#![tactic(auto)]

pub mod shoot;

pub use shoot::Shoot;
