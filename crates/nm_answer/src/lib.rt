//! How a command of the program ends: its status, what it reads and what it writes.
#![tactic(auto)]

pub mod reading;
pub mod status;
pub mod writing;

pub use reading::read_script;
pub use status::Status;
pub use writing::{print_call, write_text};
