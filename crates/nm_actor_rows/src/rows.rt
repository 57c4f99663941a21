//! The smallest parts, actors, chairs and boards, and rows that run them.
mod actors;
mod boards;
mod chairs;
mod machine;
mod parts;
mod pools;
