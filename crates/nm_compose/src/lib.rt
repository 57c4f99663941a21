//! Parts made of smaller parts: a single action, a choice of pieces, and a composite, which runs one piece after the other
//! as its plan says.
#![tactic(auto)]

pub mod act;
pub mod composite;
pub mod or;
pub mod plan;

pub use act::Act;
pub use composite::Composite;
pub use or::Or;
pub use plan::{Next, Plan};
