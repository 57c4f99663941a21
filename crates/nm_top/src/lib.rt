//! The calls of the program: what it answers to its words, and what it reads and writes.
#![tactic(auto)]

mod call;
mod drill;
mod facts;
mod generated;
mod importing;
mod journal;
mod lab;
mod program;
mod run;
mod sim;

pub use call::{nomad_main, plain_call};
pub use facts::the_facts_hold_of_each_simulation;
pub use nm_answer::Status;
pub use program::nomad_program;
pub use run::run_call;
pub use sim::script_call;
