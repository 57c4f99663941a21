//! What a processor's own list counts of its faults.
#![tactic(auto)]

pub mod counts;
