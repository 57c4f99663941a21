//! The migrator: candidates are judged, and pending pages are moved to faster tiers.
#![tactic(auto)]

pub mod actor;
pub mod migrating;
pub mod steps;

pub use actor::MigratorActor;
pub use migrating::Migrating;
