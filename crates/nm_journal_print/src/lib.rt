//! Journals, written.
#![tactic(auto)]

mod journal;
mod law;
mod lines;

pub use journal::{print_journal, print_with_lines};
pub use law::written_journal_holds;
pub use lines::push_event_line;
