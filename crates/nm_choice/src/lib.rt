//! Patterns that leave no choice: of any two of their finished lists, either they are the same, or they part where one action was
//! answered in two ways.
#![tactic(auto)]
