//! What an actor gives and hears, turn by turn.

use crate::action::{Action, Reply};

/// A queue of backing pages.
#[derive(Clone, Copy, Debug, PartialEq, Eq)]
pub enum Lane {
    /// Pages that were touched in a slow tier.
    Candidates,
    /// Pages that are to be moved to a faster tier.
    Pending,
}

/// A lane had no room for one more page; it is unchanged.
#[derive(Clone, Copy, Debug, PartialEq, Eq)]
pub struct Full;

/// What an actor does next.
#[derive(Clone, Copy, Debug, PartialEq, Eq)]
pub enum Turn {
    /// It makes an action.
    Do(Action),
    /// It puts a page into a lane.
    Put(Lane, u32),
    /// It takes a page from a lane.
    Take(Lane),
    /// It has ended.
    End,
}

/// What an actor hears before it gives its next turn.
#[derive(Clone, Copy, Debug, PartialEq, Eq)]
pub enum Heard {
    /// It has given no turn yet.
    Start,
    /// What its action was answered.
    Answer(Reply),
    /// The page was put into the lane.
    PutDone,
    /// The lane was full.
    PutFull,
    /// This page was taken from the lane.
    Took(u32),
    /// The lane was empty.
    TookNone,
}

/// What a part of an actor's work gives next.
#[derive(Clone, Copy, Debug, PartialEq, Eq)]
pub enum Step<O> {
    /// It makes an action.
    Do(Action),
    /// It is over, with this outcome.
    Over(O),
}
