//! The fault on a virtual page that is not mapped, and the search for a frame that it makes where the page has no home.
#![tactic(auto)]

pub mod missing;
pub mod search;

pub use missing::{MissingFault, MissingPiece};
pub use search::{FrameSearch, SearchMade, SearchPiece, SearchPieceEnd, SearchTask};
