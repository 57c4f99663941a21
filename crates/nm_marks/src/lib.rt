//! Which Marks a finished list makes: what holds of them for patterns, from what holds for what these are joined of.
#![tactic(auto)]
