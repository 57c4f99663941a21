//! The words of the command line, and what they ask for.
#![tactic(auto)]

pub mod form;
mod line;

pub use form::{Form, Retries, form_of};
