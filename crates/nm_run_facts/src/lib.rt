//! What is true of each run of a script, whoever chose the order of its steps.
#![tactic(auto)]

pub mod facts;

pub use facts::{the_facts_hold_of_each_journal, the_facts_hold_of_each_run_of_a_script};
