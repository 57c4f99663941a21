//! Tiers of memory: how they are formed from nodes, and which is the next faster and the next slower.
#![tactic(auto)]

pub mod nodes;
pub mod order;

pub use nodes::{Node, TierRefusal, tiers_from_nodes};
pub use order::{faster, slower};
