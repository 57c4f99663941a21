//! Rows of the lowest crates: worked values of geometries and words, actions, tiers, policy, flat memory and caches of
//! translations. The library itself is empty.
#![tactic(auto)]

#[cfg(test)]
mod rows;
