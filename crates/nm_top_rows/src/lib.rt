//! Rows of the program's outside that texts don't show: sources and sinks, and want of memory. The library itself is empty.
#![tactic(auto)]

#[cfg(test)]
mod rows;
