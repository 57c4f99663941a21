//! Worked rows of the parts of an actor's work, run on a machine. The library itself is empty.
#![tactic(auto)]

#[cfg(test)]
mod actions;
#[cfg(test)]
mod batches;
#[cfg(test)]
mod demotions;
#[cfg(test)]
mod driver;
#[cfg(test)]
mod faults;
#[cfg(test)]
mod rows;
#[cfg(test)]
mod scenes;
#[cfg(test)]
mod works;
