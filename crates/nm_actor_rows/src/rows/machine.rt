//! Actors of a machine, and parts that are run by one, step by step as a table says. Each reply is tested to fit.

ghost use Rattle.std.specs.Prelude.{◌≡◌, ◌≤◌, ℕ, [], slice_index, IsTrue};
ghost use Rattle.nm_base.specs.Geometry.{Geometry};
ghost use Rattle.nm_base.specs.Ranges.{IsTier};
ghost use Rattle.nm_view.specs.Opening.{IsActor, opening};
ghost use Rattle.nm_permit.specs.Permitted.{Allowed, InRange};
ghost use Rattle.nm_event.specs.Fitting.{Fits, IsScanOf, IsTableReply};
ghost use Rattle.nm_core.specs.State.{view_of};
ghost use Rattle.nm_actor_rows.specs.Following.{IsMade};

use nm_actor::Actor;
use nm_base::Geometry;
use nm_core::State;
use nm_event::{Action, ActorView, Heard, Reply, Step, Turn, allowed};
use nm_part::Part;
use std::process::Abort;

/// A line of a table.
#[derive(Clone, Copy)]
pub(super) enum Line {
    /// The part, or the actor, gives this action, and hears this reply.
    Gives(Action, Reply),
    /// Another actor makes this action.
    Other(u32, Action),
}

/// Whether a view has no operation.
fn has_no_op(view: &ActorView) -> bool
    ensures { IsTrue result → view.now.ops ≡ [] }
{
    view.ops.is_empty()
}

/// Whether a view owns no frame.
fn owns_nothing(view: &ActorView) -> bool
    ensures { IsTrue result → view.now.owned ≡ [] }
{
    view.owned.is_empty()
}

/// Whether a tier has frames for eight bits.
fn is_large(g: &Geometry, tier: u32) -> bool
    requires { IsTier g.now tier }
    ensures { IsTrue result → 8 ≤ slice_index g.now.tiers tier }
{
    g.tiers[tier as usize] >= 8
}

/// Whether word 0 of a tier's free frames fits, where the view has no operation and owns nothing.
fn scan_fits(g: &Geometry, view: &ActorView, tier: u32, word: u64) -> bool
    requires { IsTier g.now tier }
    ensures { IsTrue result → IsScanOf g.now view.now tier 0 word }
{
    if !has_no_op(view) {
        return false;
    }
    if !owns_nothing(view) {
        return false;
    }
    if !is_large(g, tier) {
        return false;
    }
    word < 256
}

/// Whether a table word is absent, and so fits where the view has no operation.
fn absent_fits(view: &ActorView, word: u64) -> bool
    ensures { IsTrue result
        → (g : Geometry) (vpage : ℕ) → IsTableReply g view.now vpage word }
{
    if !has_no_op(view) {
        return false;
    }
    word == 0
}

/// Whether a reply fits a Look, or an action of a shootdown or a pool task. Others are not looked at.
fn fits(g: &Geometry, view: &ActorView, action: Action, reply: Reply) -> bool
    requires { InRange g.now action }
    ensures { IsTrue result → Fits g.now view.now action reply }
{
    match (action, reply) {
        (Action::Look { .. }, Reply::Word(word)) => absent_fits(view, word),
        (Action::Bump, Reply::Word(word)) => word <= 8,
        (Action::SeeAck { .. }, Reply::Word(_)) => true,
        (Action::TakeTurn { .. }, Reply::Done) => true,
        (Action::TakeTurn { .. }, Reply::Busy(word)) => word != 0,
        (Action::ReleaseTurn { .. }, Reply::Done) => true,
        (Action::Scan { tier, index }, Reply::Word(word)) => index == 0
            && scan_fits(g, view, tier, word),
        (Action::GiveFrame { .. }, Reply::Word(_)) => true,
        (Action::PutFrame { .. }, Reply::Word(_)) => true,
        _ => false,
    }
}

/// Another actor makes an action, where that is permitted.
fn intrude(state: &mut State, actor: u32, other: u32, action: Action) -> bool
    ensures geometry { state.new.geometry ≡ state.old.geometry }
    ensures view { view_of state.new actor ≡ view_of state.old actor }
{
    if other == actor || other >= state.geometry().cpus + 2 {
        return false;
    }
    if !allowed(state.geometry(), state.view(other), action) {
        return false;
    }
    state.apply(other, action);
    true
}

/// The actor makes an action, where this reply fits and is the one that comes.
fn make(state: &mut State, actor: u32, action: Action, reply: Reply) -> bool
    requires exists { IsActor state.old.geometry actor }
    requires allowed { Allowed state.old.geometry (view_of state.old actor) action }
    ensures geometry { state.new.geometry ≡ state.old.geometry }
    ensures made { IsTrue result → IsMade state.old.geometry (view_of state.old actor) (view_of state.new actor) action reply }
{
    if !fits(state.geometry(), state.view(actor), action, reply) {
        return false;
    }
    state.apply(actor, action) == reply
}

/// Runs a part as a table says. Conditions: the part has given no action yet, and it may begin in the actor's view.
pub(super) fn play<P: Part>(
    rt: &impl Abort,
    state: &mut State,
    actor: u32,
    part: &mut P,
    lines: &[Line],
) -> P::Outcome
    requires exists { IsActor state.old.geometry actor }
    requires new { P.is_new part.old }
    requires begin { P.may_begin (P.made part.old) state.old.geometry (view_of state.old actor) }
{
    let mut step = part.first();
    for line in lines {
        match *line {
            Line::Other(other, action) => {
                let made = intrude(state, actor, other, action);
                assert!(rt; made, "another actor's action");
            }
            Line::Gives(action, reply) => {
                let Step::Do(given) = step else {
                    panic!(rt; "over too early")
                };
                assert!(rt; given == action, "another action");
                let made = make(state, actor, given, reply);
                if !made {
                    panic!(rt; "another reply");
                }
                step = part.after(reply);
            }
        }
    }
    let Step::Over(outcome) = step else {
        panic!(rt; "not over")
    };
    outcome
}

/// Runs an actor of a machine to its end, as a table says. Conditions: it is this actor of this machine, it has given no turn
/// yet, and in its view nothing was done.
pub(super) fn act<A: Actor>(
    rt: &impl Abort,
    state: &mut State,
    number: u32,
    actor: &mut A,
    lines: &[Line],
)
    requires exists { IsActor state.old.geometry number }
    requires geometry { A.geometry (A.made actor.old) ≡ state.old.geometry }
    requires number { A.number (A.made actor.old) ≡ number }
    requires new { A.is_new actor.old }
    requires view { view_of state.old number ≡ opening state.old.geometry number }
{
    let mut turn = actor.next(Heard::Start);
    for line in lines {
        match *line {
            Line::Other(other, action) => {
                let made = intrude(state, number, other, action);
                assert!(rt; made, "another actor's action");
            }
            Line::Gives(action, reply) => {
                let Turn::Do(given) = turn else {
                    panic!(rt; "no action")
                };
                assert!(rt; given == action, "another action");
                let made = make(state, number, given, reply);
                if !made {
                    panic!(rt; "another reply");
                }
                turn = actor.next(Heard::Answer(reply));
            }
        }
    }
    assert!(rt; turn == Turn::End);
}
