//! Journals: what a journal is, which of them hold, and how far lines are the beginning of one that holds.
#![tactic(auto)]

mod law;

pub use law::{event_lines_begin, one_verdict};
