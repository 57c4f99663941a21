//! What the seats of a running machine know, for contracts alone.

use atomic_table::TableRule;
use nm_action::{Action, Event, Reply};
use nm_base::Geometry;
use nm_view::ActorView;
use std::collections::LinkedList;

/// How far an actor has come: its view and its own list. No value of it is made.
pub struct Progress {
    /// What the actor knows and holds.
    pub view: ActorView,
    /// Its actions with their replies, in order.
    pub own: LinkedList<(Action, Reply)>,
}

/// What the first seat knows of the seat of an actor. No value of it is made.
pub enum ActorSeat {
    /// It was not split off yet; the actor as it was made.
    Unsplit(Progress),
    /// It was split off, and was not joined back.
    Out,
    /// It was joined back when the actor had come so far.
    Back(Progress),
}

/// What a seat knows. No value of it is made.
pub struct Knowledge {
    /// At the seat of an actor, how far the actor has come. None at the first seat, and at a seat that was joined.
    pub mine: Option<Progress>,
    /// At the first seat, by the numbers of the actors, what became of the seat of each. Empty at every other seat.
    pub seats: LinkedList<ActorSeat>,
    /// What the seat has seen of the run: a beginning of it.
    pub seen: LinkedList<Event>,
}

/// The rule: words and views show a state of the machine that is reached by a run.
pub struct RunRule;

impl TableRule<(), Knowledge, Geometry> for RunRule {
    ghost use Rattle.nm_rule.specs.Knows.{first_knowledge};
    ghost use Rattle.nm_rule.specs.Shows.{Shows};

    ghost holds = { Shows };

    ghost first = { first_knowledge };
}
