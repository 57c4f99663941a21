//! Rows of simulations: the order in which actors make their turns. The library itself has actors that give turns from a list.
#![tactic(auto)]

pub mod listed;
#[cfg(test)]
mod rows;
