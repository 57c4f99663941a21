//! The rows.

mod page_queue;
mod ring_port;
mod threads;
