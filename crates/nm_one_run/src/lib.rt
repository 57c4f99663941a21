//! That a schedule and a machine leave no choice: where the actors leave none, there is one run.
#![tactic(auto)]

pub mod single;
