//! Tasks of actors leave no choice; and what follows for the answered turns of an actor.
#![tactic(auto)]
