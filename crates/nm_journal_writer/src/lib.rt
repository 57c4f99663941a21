//! The lines of a journal's events, written while the run goes on.
#![tactic(auto)]

pub mod writer;

pub use writer::JournalWriter;
