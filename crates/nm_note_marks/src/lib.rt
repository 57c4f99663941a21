//! Which Marks the sequences of an actor make: what holds of them for patterns over answered turns.
#![tactic(auto)]
