//! The outside of the machine: sources of bytes, sinks for bytes, and the gate at each step.
#![tactic(auto)]

mod adapters;
mod faults;
mod gates;
mod mem_sink;
mod mem_source;
mod sinks;
mod sources;

pub use adapters::{StdSink, StdSource};
pub use faults::{Failed, ReadRefusal, WriteFault};
pub use gates::{Gate, Open};
pub use mem_sink::MemSink;
pub use mem_source::MemSource;
pub use sinks::{Sink, write_all};
pub use sources::{MOST_BYTES, Source, bound_of_a_text, read_all};
