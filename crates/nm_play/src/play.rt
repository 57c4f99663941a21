//! One turn of an actor on a machine.

ghost use Rattle.std.specs.Prelude.{◌≡◌, ℕ, ◌++◌, ◌∷◌, [], false, true, List, OnOk, IfOk, Ok};
ghost use Rattle.nm_base.specs.Geometry.{Geometry, IsGeometry};
ghost use Rattle.nm_view.specs.Opening.{IsActor};
ghost use Rattle.nm_actor.specs.Actors.{IsPermittedTurn};
ghost use Rattle.nm_core.specs.State.{view_of};
ghost use Rattle.nm_schedule.specs.Played.{act_by, events_of, order_of};
ghost use Rattle.nm_play.specs.Answered.{IsTurnAnswered};
ghost use Rattle.nm_play.specs.Played.{is_end};

use nm_action::{Event, Heard, Turn};
use nm_core::State;
use nm_queue::RingPort;
use nm_schedule::{Played, SimAct, SimTurn};
use std::alloc::AllocError;

/// Whether a turn is End.
pub(crate) fn is_end(turn: Turn) -> bool
    ensures { result ≡ is_end turn }
{
    match turn {
        Turn::End => true,
        _ => false,
    }
}

/// Makes a turn of an actor on the machine or in the lanes, and gives the answer. Conditions: the actor exists, the turn is
/// permitted by its view, and it isn't End.
pub(crate) fn answer(state: &mut State, lanes: &mut RingPort, actor: u32, turn: Turn) -> Heard
    requires exists { IsActor state.old.geometry actor }
    requires permitted { IsPermittedTurn state.old.geometry (view_of state.old actor) turn }
    requires acts { is_end turn ≡ false }
    ensures { IsTurnAnswered state.old state.new lanes.old lanes.new actor turn result }
{
    match turn {
        Turn::Do(action) => Heard::Answer(state.apply(actor, action)),
        Turn::Put(lane, page) => match lanes.put(lane, page) {
            Ok(()) => Heard::PutDone,
            Err(_) => Heard::PutFull,
        },
        Turn::Take(lane) => match lanes.take(lane) {
            Some(page) => Heard::Took(page),
            None => Heard::TookNone,
        },
        Turn::End => unreachable!(),
    }
}

/// A turn as it stands in the order of a run.
fn act_of(turn: Turn, heard: Heard) -> SimAct
    ensures { result ≡ act_by turn heard }
{
    match (turn, heard) {
        (Turn::Put(lane, page), Heard::PutFull) => SimAct::Put {
            lane,
            page,
            full: true,
        },
        (Turn::Put(lane, page), _) => SimAct::Put {
            lane,
            page,
            full: false,
        },
        (Turn::Take(lane), Heard::Took(page)) => SimAct::Take {
            lane,
            page: Some(page),
        },
        (Turn::Take(lane), _) => SimAct::Take { lane, page: None },
        _ => SimAct::Step,
    }
}

/// Adds the event of a turn to the events, where it was an action.
pub(crate) fn push_event(events: &mut Vec<Event>, played: Played) -> Result<(), AllocError>
    ensures { OnOk result (events.new.items ≡ events.old.items ++ events_of (played ∷ [])) }
{
    if let (Turn::Do(action), Heard::Answer(reply)) = (played.turn, played.heard) {
        events.push(Event {
            actor: played.actor,
            action,
            reply,
        })?;
    }
    Ok(())
}

/// Adds a turn to the order.
pub(crate) fn push_turn(order: &mut Vec<SimTurn>, played: Played) -> Result<(), AllocError>
    ensures { OnOk result (order.new.items ≡ order.old.items ++ order_of (played ∷ [])) }
{
    order.push(SimTurn {
        actor: played.actor,
        act: act_of(played.turn, played.heard),
        ended: played.ended,
    })?;
    Ok(())
}
