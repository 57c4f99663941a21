//! Rows of lanes of pages: on one thread, and shared by several. The library itself is empty.
#![tactic(auto)]

#[cfg(test)]
mod rows;
