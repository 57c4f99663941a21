//! What is done at each of several virtual pages of a backing page, in ascending order, as a part.
#![tactic(auto)]

pub mod run;
pub mod visits;

pub use run::Visits;
pub use visits::{Visit, VisitPlan, VisitsMade};
