//! The machine: its words, the views of its actors, and one step of it.

ghost use Rattle.std.specs.Prelude.{◌≡◌, ℕ, ◌<◌, ◌↔◌, IfOk, map, length};
ghost use Rattle.std.specs.List.{range_with_len};
ghost use Rattle.nm_base.specs.Geometry.{IsGeometry};
ghost use Rattle.nm_view.specs.Opening.{opening, IsActor};
ghost use Rattle.nm_base.specs.Ranges.{IsWord};
ghost use Rattle.nm_event.specs.After.{after_of};
ghost use Rattle.nm_permit.specs.Permitted.{Allowed};
ghost use Rattle.nm_shape.specs.Keyed.{IsKeyed};
ghost use Rattle.nm_event.specs.Ranged.{IsInRangeReply};
ghost use Rattle.nm_words.specs.Names.{IsPlace};
ghost use Rattle.nm_words.specs.Words.{exchanged, HasSizes};
ghost use Rattle.nm_step.specs.Table.{where_of, change_of};
ghost use Rattle.nm_core.specs.State.{state_of, view_of, reply_by, reply_to, step, start, actor_count};
ghost use Rattle.nm_core.specs.Kept.{IsKept};
ghost use Rattle.nm_core.specs.Causes.{IsBusyWith, IsLostTo, Refuses};

use nm_action::{Action, Reply};
use nm_base::Geometry;
use nm_shape::advance_keyed;
use nm_step::{exchange_of, reply_of};
use nm_view::ActorView;
use nm_words::Words;
use std::alloc::{AllocError, Global};
use std::marker::Model;

/// The state of a machine: its words, and a view for each actor. Actors are the processors by their numbers, then the
/// migrator, then the reclaimer.
#[derive(Drop)]
pub struct State {
    pub(crate) geometry: Geometry,
    pub(crate) words: Words,
    pub(crate) views: Vec<ActorView>,
}

impl Model for State {
    ghost use Rattle.nm_core.specs.State as plain;

    ghost Value = { plain.State };

    ghost use Rattle.nm_core.specs.State.{state_of};
    ghost use Rattle.nm_core.specs.Kept.{IsKept};

    ghost view = { λ s. state_of s.geometry s.words s.views.items };

    ghost invariant = { λ s. IsKept (state_of s.geometry s.words s.views.items) };
}

/// A geometry of its own with the same fields.
fn copied(alloc: Global, g: &Geometry) -> Result<Geometry, AllocError>
    ensures same { IfOk result (λ copy. copy ≡ g.now) }
    ensures sound { IfOk result IsGeometry }
{
    match Geometry::new(alloc, g.words, &g.tiers, g.cpus, &g.vpages) {
        Ok(copy) => Ok(copy),
        Err(_) => Err(AllocError),
    }
}

/// The opening views of all actors.
fn opening_views(alloc: Global, g: &Geometry) -> Result<Vec<ActorView>, AllocError>
    ensures { IfOk result (λ views. views.items ≡ map (opening g.now) (range_with_len 0 (actor_count g.now))) }
{
    let actors = g.cpus + 2;
    let mut views = Vec::with_capacity(alloc, actors as usize)?;
    for number in 0..actors {
        let view = ActorView::start(alloc, g, number)?;
        views.push_reserved(view);
    }
    Ok(views)
}

/// Makes the exchange of an action on the words, and changes the view of its actor by the reply.
fn act(g: &Geometry, words: &mut Words, view: &mut ActorView, action: Action) -> Reply
    requires sizes { HasSizes g.now words.old }
    requires keyed { IsKeyed g.now view.old }
    requires allowed { Allowed g.now view.old action }
    requires place { IsPlace g.now (where_of g.now view.old action) }
    requires range { IsInRangeReply g.now action (reply_by g.now words.old view.old action) }
    ensures words { words.new ≡ exchanged g.now (where_of g.now view.old action)
        (change_of g.now view.old action) words.old }
    ensures reply { result ≡ reply_by g.now words.old view.old action }
    ensures view { view.new ≡ after_of g.now view.old action (reply_by g.now words.old view.old action) }
    ensures keyed { IsKeyed g.now view.new }
{
    let (place, change) = exchange_of(g, view, action);
    let reply = reply_of(change, words.exchange(g, place, change));
    advance_keyed(g, view, action, reply);
    reply
}

/// Makes one step of an actor on the words and the views of a machine.
fn make_step(
    g: &Geometry,
    words: &mut Words,
    views: &mut [ActorView],
    actor: u32,
    action: Action,
) -> Reply
    requires kept { IsKept (state_of g.now words.old views.old) }
    requires actor { actor < length views.old }
    requires allowed { Allowed g.now (view_of (state_of g.now words.old views.old) actor) action }
    ensures step { state_of g.now words.new views.new ≡ step (state_of g.now words.old views.old) actor action }
    ensures kept { IsKept (state_of g.now words.new views.new) }
    ensures reply { result ≡ reply_to (state_of g.now words.old views.old) actor action }
{
    let view = &mut views[actor as usize];
    act(g, words, view, action)
}

impl State {
    /// The state in which nothing was done: every frame is free, every processor is Off, every other word is 0, and
    /// every view is an opening one, with room for all that it may hold. `AllocError` comes where there is no memory
    /// for them.
    pub fn start(alloc: Global, g: &Geometry) -> Result<State, AllocError>
        ensures { IfOk result (λ s. s ≡ start g.now) }
    {
        Ok(State {
            geometry: copied(alloc, g)?,
            words: Words::start(alloc, g)?,
            views: opening_views(alloc, g)?,
        })
    }

    /// The state of these parts: the words and the views of a machine of this geometry. Condition: they are what a state can
    /// have. It takes no memory.
    pub fn of_parts(geometry: Geometry, words: Words, views: Vec<ActorView>) -> State
        requires { IsKept (state_of geometry words views.items) }
        ensures { result ≡ state_of geometry words views.items }
    {
        State {
            geometry,
            words,
            views,
        }
    }

    /// The geometry of the machine.
    pub fn geometry(&self) -> &Geometry
        ensures same { result.now ≡ self.now.geometry }
        ensures kept { IsKept self.now }
    {
        &self.geometry
    }

    /// Makes one step of an actor: the exchange of the action, and the change of the actor's view by the reply. It
    /// takes no memory.
    ///
    /// `Busy` comes exactly where the lock or turn word that the action would take is not 0, and carries it. `Lost`
    /// comes exactly where the table word or mark is not the expected one, and carries it. Both leave the state as it
    /// was.
    pub fn apply(&mut self, actor: u32, action: Action) -> Reply
        requires actor { IsActor self.old.geometry actor }
        requires allowed { Allowed self.old.geometry (view_of self.old actor) action }
        ensures step { self.new ≡ step self.old actor action }
        ensures reply { result ≡ reply_to self.old actor action }
        ensures busy { (w : ℕ) → (result ≡ Reply.Busy w) ↔ IsBusyWith self.old actor action w }
        ensures lost { (w : ℕ) → (result ≡ Reply.Lost w) ↔ IsLostTo self.old actor action w }
        ensures refused { Refuses result → self.new ≡ self.old }
        ensures before { IsKept self.old }
        ensures after { IsKept self.new }
    {
        make_step(
            &self.geometry,
            &mut self.words,
            &mut self.views,
            actor,
            action,
        )
    }
}
