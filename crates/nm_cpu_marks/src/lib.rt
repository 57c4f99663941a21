//! That a processor that has ended took part in the marks as it is to.
#![tactic(auto)]

pub mod marks;
