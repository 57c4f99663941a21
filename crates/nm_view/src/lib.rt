//! The views of the actors: what each knows and holds, the lists of it by numbers, and the view with which it begins.
#![tactic(auto)]

pub mod keyed;
pub mod opening;
pub mod reading;
pub mod start;
pub mod view;

pub use start::UNSCANNED;
pub use view::{
    ActorView, CacheEntry, END, Fill, MOST_OPS, OFF, OWN_BUMPS, OWN_RAISES, OpenOp, Owned, Peeked,
    Phase, Room, Scanned,
};
