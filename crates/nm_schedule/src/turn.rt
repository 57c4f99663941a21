//! The turns of a simulation, in their order.

use nm_action::{Heard, Lane, Turn};

/// A turn that was played.
#[derive(Clone, Copy, Debug, PartialEq, Eq)]
pub struct Played {
    /// The number of the actor.
    pub actor: u32,
    /// The turn.
    pub turn: Turn,
    /// What the actor heard.
    pub heard: Heard,
    /// The actor then gave End.
    pub ended: bool,
}

/// What a turn was.
#[derive(Clone, Copy, Debug, PartialEq, Eq)]
pub enum SimAct {
    /// An action: the next of the events.
    Step,
    /// A page was to be put into a lane.
    Put {
        /// The lane.
        lane: Lane,
        /// The backing page.
        page: u32,
        /// The lane was full.
        full: bool,
    },
    /// A page was to be taken from a lane.
    Take {
        /// The lane.
        lane: Lane,
        /// The backing page that was taken; none where the lane was empty.
        page: Option<u32>,
    },
}

/// A turn of a simulation.
#[derive(Clone, Copy, Debug, PartialEq, Eq)]
pub struct SimTurn {
    /// The number of the actor.
    pub actor: u32,
    /// What it was.
    pub act: SimAct,
    /// The actor then gave End.
    pub ended: bool,
}
