//! Numbers, cuts, fields and lines of text, and the words of the kinds of action, which every text format of the program is made of.
//! A text is a list of bytes. Nothing here asks that it is UTF-8.
#![tactic(auto)]

mod cuts;
mod fields;
mod kinds;
mod numbers;

pub use cuts::{cut, strip};
pub use fields::{first_line, is_text, one_field, three_fields, two_fields};
pub use kinds::{kind_word, read_kind};
pub use numbers::{push_field, push_fields, push_number, read_number};
