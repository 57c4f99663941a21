//! The faults of a processor, as its accesses need them.
#![tactic(auto)]

pub mod fault;

pub use fault::ProcessorFault;
