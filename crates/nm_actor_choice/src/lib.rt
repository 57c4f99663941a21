//! What is said of an actor's part of a run leaves it no choice.
#![tactic(auto)]
