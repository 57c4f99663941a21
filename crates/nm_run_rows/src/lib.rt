//! Rows of the command `run`, which runs a script on threads. The library itself is empty.
#![tactic(auto)]

#[cfg(test)]
mod driver;
#[cfg(test)]
mod rows;
