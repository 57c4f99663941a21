//! Whether every processor has ended, as a part of an actor's work.
#![tactic(auto)]

pub mod ask;
pub mod run;

pub use ask::AskEnded;
pub use run::AskRun;
