//! The transaction law: what the list of events of every run shows of each transaction.
#![tactic(auto)]

pub mod runs;
