//! What every crate of the machine stands on: its geometry, and the words of its tables: page words, home words, shadow words
//! and words of free frames.
#![tactic(auto)]

pub mod free_words;
pub mod geometry;
pub mod home_word;
pub mod page_word;
mod reverse_map;
pub mod shadow_word;
pub mod table_word;

pub use geometry::{Field, Geometry, GeometryRefusal, VPage};
pub use page_word::PageWord;
