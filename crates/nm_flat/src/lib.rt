//! Flat memory: accesses to the words of backing pages, and whether a list of them is legal.
#![tactic(auto)]

pub mod access;
pub mod memory;

pub use access::{Access, AccessKind, own_part};
pub use memory::{FlatMemory, place_of, replay, word_count};
