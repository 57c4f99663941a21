//! The end of a transaction: its table word is taken out, and by the dirty bit of that word it commits or aborts.
#![tactic(auto)]

pub mod decide;
pub mod decide_run;
pub mod unmap;
pub mod unmap_run;

pub use decide::{Decide, DecideMade, DecidePiece, Decided};
pub use decide_run::DecideRun;
pub use unmap::{UnmapMade, UnmapOne};
pub use unmap_run::UnmapRun;
