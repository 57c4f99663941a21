//! A page is inspected: whether it is to be demoted.
#![tactic(auto)]

pub mod inspect;
pub mod run;

pub use inspect::{Inspect, InspectEnd, InspectMade, InspectPiece, Inspected};
pub use run::InspectRun;
