//! Lanes of pages: both on one thread, or a queue that several threads share.
#![tactic(auto)]

pub mod page_queue;
pub mod ring_port;
mod rule;

pub use page_queue::{PageQueue, QueuePass};
pub use ring_port::RingPort;
