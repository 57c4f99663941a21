//! The lane Pending, as the turns of the one actor show it that puts pages into it and takes them from it.
#![tactic(auto)]

pub mod lane;
