//! Rows of the running machine: two seats on one thread, and two threads that race on one word. The library is empty.
#![tactic(auto)]

#[cfg(test)]
mod driver;
#[cfg(test)]
mod rows;
#[cfg(test)]
mod threads;
