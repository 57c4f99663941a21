//! What a step changes in the view of its actor, and which replies it can get; with the actions, the views and what a view
//! permits, which it passes on.
#![tactic(auto)]

pub mod answered;
mod change;
mod frames;

pub use answered::after;
pub use frames::scanned_word;
pub use nm_action::{
    AckTo, Action, ActionKind, Bit, Cell, Event, Full, Heard, Lane, Reply, Spent, Step, Tally, Turn,
};
pub use nm_permit::allowed;
pub use nm_view::{ActorView, CacheEntry, Fill, OpenOp, Owned, Peeked, Phase, Room, Scanned};
