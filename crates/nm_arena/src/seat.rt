//! Seats.

ghost use Rattle.std.specs.Prelude.{◌≡◌, ◌↔◌, ◌<◌, ℕ, true, false, length, IsTrue, All};
ghost use Rattle.nm_rule.specs.Knows.{seat_of};
ghost use Rattle.nm_arena.specs.Seats.{IsSplitOut};
ghost use Rattle.nm_arena.specs.Views.{IsThere};

use atomic_table::Seat as Place;
use nm_rule::Knowledge;
use nm_view::ActorView;
use std::marker::Model;

/// What a seat has when the machine runs.
#[derive(Drop)]
pub(crate) enum Held {
    /// The seat of an actor has its view.
    Actor(ActorView),
    /// The first seat has the view of each actor whose seat is not out, by their numbers.
    First(Vec<Option<ActorView>>),
}

/// The seat of an actor, with the actor's view; or the first seat, from which the seats of all actors are split off, and
/// which keeps the views of those that are not out. Contracts see also the actor's own list, what the seat has seen of the
/// run, and for the first seat what became of the seat of each actor; no memory holds these.
#[derive(Drop)]
pub struct Seat {
    pub(crate) place: Place<(), Knowledge>,
    pub(crate) held: Held,
}

impl Model for Seat {
    ghost use Rattle.nm_arena.specs.Faces.{SeatFace};

    ghost Value = { SeatFace };

    ghost use Rattle.std.specs.Prelude.{◌≡◌, []};
    ghost use Rattle.nm_arena.specs.Mirrors.{seat_face, Mirrors};

    ghost view = { λ s. seat_face s.held s.place.table_id s.place.me.0 };

    ghost invariant = { λ s. (s.place.me.1 ≡ []) × Mirrors s.held s.place.me.0 };
}

/// Whether a view is there.
fn is_there(view: &Option<ActorView>) -> bool
    ensures { IsTrue result ↔ IsThere view.now }
{
    match view {
        Some(_) => true,
        None => false,
    }
}

/// Whether every view is there.
fn are_there(views: &[Option<ActorView>]) -> bool
    ensures { IsTrue result ↔ All IsThere views.now }
{
    for view in views {
        if !is_there(view) {
            return false;
        }
    }
    true
}

impl Seat {
    /// The view of the seat's actor. Condition: it is the seat of an actor.
    pub fn view(&self) -> &ActorView
        requires { self.now.first ≡ false }
        ensures { result.now ≡ self.now.view }
    {
        let Held::Actor(view) = &self.held else {
            unreachable!()
        };
        view
    }

    /// Whether no actor's seat is out: each that was split off was joined back. Condition: it is the first seat.
    pub fn are_all_back(&self) -> bool
        requires { self.now.first ≡ true }
        ensures { IsTrue result ↔ ((actor : ℕ) → actor < length self.now.seats → ¬ IsSplitOut (seat_of self.now.seats actor)) }
    {
        let Held::First(views) = &self.held else {
            unreachable!()
        };
        are_there(views)
    }
}
