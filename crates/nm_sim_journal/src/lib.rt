//! The journal of the run of a script in the order of its schedule.
#![tactic(auto)]

pub mod law;

pub use law::the_journal_of_each_simulation_holds;
