//! The rows: reports, refusals, and runs that a gate of their own holds.

mod gates;
mod refusals;
mod reports;
