//! The translations of a processor, and how it catches up with what others have changed.
#![tactic(auto)]

pub mod cache;

pub use cache::TranslationCache;
