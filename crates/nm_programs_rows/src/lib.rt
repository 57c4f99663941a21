//! Rows of simulations of scripts.
#![tactic(auto)]

#[cfg(test)]
mod resumed;
#[cfg(test)]
mod rows;
