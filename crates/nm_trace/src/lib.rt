//! Traces of memory references in CSV: the script of a trace, and the trace of a script.
#![tactic(auto)]

mod draft;
mod fault;
mod importing;
mod laws;
mod reading;
mod reference;
mod writing;

pub use fault::{TraceFault, TraceRefusal};
pub use importing::import;
pub use laws::{one_import, page_numbers, read_again};
pub use reference::Reference;
pub use writing::to_trace;
