//! Worked rows of the laws: lists of events that are followed, and steps under each law. The library is empty.
#![tactic(auto)]

#[cfg(test)]
mod driver;
#[cfg(test)]
mod list;
#[cfg(test)]
mod rows;
