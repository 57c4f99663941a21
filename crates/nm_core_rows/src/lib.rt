//! Worked rows of the machine: steps by hand, and what a state tells afterwards. The library is empty.
#![tactic(auto)]

#[cfg(test)]
mod driver;
#[cfg(test)]
mod rows;
