//! Journals: their text, and a checker of them.
#![tactic(auto)]

mod body;
pub mod check;
mod differing;
mod event;
mod parting;
mod reader;
mod report;

pub use check::Verdict;
