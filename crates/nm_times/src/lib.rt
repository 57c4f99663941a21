//! How often something was done, as a number that only proofs read.
#![tactic(auto)]

pub mod times;

pub use times::Times;
