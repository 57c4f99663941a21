//! The step as a table: for each kind of action the word on which it is an exchange, and the exchange, from which the reply
//! follows.
#![tactic(auto)]

pub mod table;

pub use table::{exchange_of, free_word_of, reply_of};
