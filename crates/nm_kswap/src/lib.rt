//! The reclaimer: the actor that relieves the faster tiers by demotions.
#![tactic(auto)]

pub mod actor;
pub mod reclaiming;
pub mod stage;
pub mod work;

pub use actor::ReclaimerActor;
pub use reclaiming::Reclaiming;
pub use work::{DemotePart, ReclaimerEnd, ReclaimerMade, ReclaimerPiece};
