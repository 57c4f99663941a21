//! Rows of each crate of the layer.
mod action;
mod flat;
mod geometry;
mod page_word;
mod policy;
mod setcache;
mod table_words;
mod tiers;
mod xlat;

use std::process::Abort;

/// Asserts that each of these facts holds. Else it tells the place of the first that doesn't.
fn all_hold(rt: &impl Abort, facts: &[bool]) {
    let wrong = facts.iter().position(|fact| !*fact);
    assert_eq!(rt; wrong, None);
}
