//! The work of the migrator.
#![tactic(auto)]

pub mod ends;
pub mod lists;
pub mod piece;
pub mod work;

pub use nm_migrator_parts::{BatchWork, MoveWork};
pub use piece::{
    MigratorEnd, MigratorMade, MigratorPiece, ask_work, batch_work, cool_work, looks_work,
    mark_work, move_work,
};
pub use work::MigratorWork;
