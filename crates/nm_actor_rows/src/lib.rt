//! Rows of parts, actors, chairs and boards, with the smallest ones of each. The library itself is empty.
#![tactic(auto)]

#[cfg(test)]
mod composites;
#[cfg(test)]
mod rows;
