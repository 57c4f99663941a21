//! Rows of sources and sinks, and the line of want of memory.
mod memory;
mod standard;
mod statuses;
