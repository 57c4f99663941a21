//! Translation caches: the trait `Translations`, and a fully associative cache.
#![tactic(auto)]

mod translations;
mod xlat_cache;

pub use translations::{Entry, Translations};
pub use xlat_cache::{CachedPage, XlatCache};
