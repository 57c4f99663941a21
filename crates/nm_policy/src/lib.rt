//! What the machine's decisions go by: watermarks of free frames, the hotness of a page, and the clock hand.
#![tactic(auto)]

pub mod hand;
pub mod hotness;
pub mod watermarks;

pub use hand::Hand;
pub use hotness::hot;
pub use watermarks::{Watermarks, enough, wants_demotion};
