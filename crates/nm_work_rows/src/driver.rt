//! Runs parts of actors' work on a machine, as the lines of a table say. The machine is in a state that some run leads to, so
//! each reply fits by the laws, and no reply is tested to fit.

ghost use Rattle.std.specs.Prelude.{◌≡◌, ◌≢◌, ℕ, [], None, IsTrue};
ghost use Rattle.nm_view.specs.Opening.{IsActor};
ghost use Rattle.nm_permit.specs.Permitted.{Allowed};
ghost use Rattle.nm_core.specs.State.{view_of};
ghost use Rattle.nm_work_rows.specs.Reached.{IsReached, HasActed, IsFreeActor, IsOverSo};

use nm_action::{Action, Event, Reply, Step};
use nm_base::Geometry;
use nm_core::State;
use nm_part::Part;
use nm_permit::allowed;
use nm_view::ActorView;
use std::process::Abort;

/// A line of a table.
#[derive(Clone, Copy, Debug)]
pub enum Line {
    /// The part gives this action, and hears this reply.
    Gives(Action, Reply),
    /// Another actor makes this action, and hears this reply.
    Other(Event),
}

/// The most actions that a part makes after the last line.
const MOST_MORE: u32 = 1000;

/// An actor makes a step.
fn step(g: &Geometry, state: &mut State, actor: u32, action: Action) -> Reply
    requires reached { IsReached g.now state.old }
    requires exists { IsActor g.now actor }
    requires allowed { Allowed g.now (view_of state.old actor) action }
    ensures { HasActed g.now state.old state.new actor action result }
{
    state.apply(actor, action)
}

/// An actor makes a step, where it exists and its view permits the action; the reply.
pub fn act(g: &Geometry, state: &mut State, actor: u32, action: Action) -> Option<Reply>
    requires { IsReached g.now state.old }
    ensures reached { IsReached g.now state.new }
    ensures others { (other : ℕ) → actor ≢ other → view_of state.new other ≡ view_of state.old other }
{
    if actor >= g.cpus + 2 {
        return None;
    }
    if !allowed(g, state.view(actor), action) {
        return None;
    }
    Some(step(g, state, actor, action))
}

/// Another actor than this one makes the step of an event, where its view permits the action; the reply.
fn intrude(g: &Geometry, state: &mut State, actor: u32, event: Event) -> Option<Reply>
    requires { IsReached g.now state.old }
    ensures reached { IsReached g.now state.new }
    ensures view { view_of state.new actor ≡ view_of state.old actor }
{
    if event.actor == actor {
        return None;
    }
    act(g, state, event.actor, event.action)
}

/// Whether a view has no operation and holds no turn.
fn is_unbound(view: &ActorView) -> bool
    ensures none { IsTrue result → view.now.ops ≡ [] }
    ensures turn { IsTrue result → view.now.turn ≡ None }
{
    view.ops.is_empty() && view.turn.is_none()
}

/// Whether an actor may begin a piece of work: it exists, and its view has no operation and holds no turn.
pub fn is_free(g: &Geometry, state: &State, actor: u32) -> bool
    requires { IsReached g.now state.now }
    ensures { IsTrue result → IsFreeActor g.now actor (view_of state.now actor) }
{
    if actor >= g.cpus + 2 {
        return false;
    }
    is_unbound(state.view(actor))
}

/// Runs a part as the lines say, and then to its end: the outcome, and how many actions it made after the last line.
/// Conditions: the part has given no action yet, and it may begin in the actor's view.
pub fn play<P: Part>(
    rt: &impl Abort,
    g: &Geometry,
    state: &mut State,
    actor: u32,
    part: &mut P,
    lines: &[Line],
) -> (P::Outcome, u32)
    requires reached { IsReached g.now state.old }
    requires exists { IsActor g.now actor }
    requires new { P.is_new part.old }
    requires begin { P.may_begin (P.made part.old) g.now (view_of state.old actor) }
    ensures reached { IsReached g.now state.new }
    ensures made { P.made part.new ≡ P.made part.old }
    ensures over { IsOverSo (P.ended part.new g.now) result.0 }
{
    let mut given = part.first();
    for line in lines {
        match *line {
            Line::Other(event) => {
                let told = intrude(g, state, actor, event);
                assert_eq!(rt; told, Some(event.reply), "{event:?}");
            }
            Line::Gives(action, reply) => {
                let Step::Do(asked) = given else {
                    panic!(rt; "over before {action:?}")
                };
                assert_eq!(rt; asked, action);
                let told = step(g, state, actor, asked);
                assert_eq!(rt; told, reply, "{line:?}");
                given = part.after(told);
            }
        }
    }
    for more in 0..MOST_MORE {
        match given {
            Step::Over(outcome) => return (outcome, more),
            Step::Do(asked) => {
                let told = step(g, state, actor, asked);
                given = part.after(told);
            }
        }
    }
    panic!(rt; "it goes on and on")
}
