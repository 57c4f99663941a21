//! A set-associative translation cache.
#![tactic(auto)]

mod set_cache;

pub use set_cache::SetCache;
