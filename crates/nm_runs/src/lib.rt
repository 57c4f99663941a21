//! That each permitted step keeps the laws, and so each run: the groups, each kept in a crate of its own, put together.
#![tactic(auto)]

pub mod runs;
