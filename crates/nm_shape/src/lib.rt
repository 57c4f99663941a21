//! The shape of a view: what each step keeps of the view of its actor, whatever the other actors do. So the lists of a
//! view always have room for a step.
#![tactic(auto)]

pub mod advancing;

pub use advancing::{advance, advance_keyed};
