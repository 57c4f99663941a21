//! What is said of an actor's part of a run, where the actor follows a routine.
#![tactic(auto)]
