//! One step of a state, and the laws after it. Each function makes the step, and takes no memory.

ghost use Rattle.std.specs.Prelude.{◌≡◌};
ghost use Rattle.nm_view.specs.Opening.{IsActor};
ghost use Rattle.nm_permit.specs.Permitted.{Allowed};
ghost use Rattle.nm_core.specs.State.{view_of, reply_to, step};
ghost use Rattle.nm_world.specs.Sights.{sight_of};
ghost use Rattle.nm_world.specs.LockLaw.{LockLaw};
ghost use Rattle.nm_world.specs.CacheLaw.{CacheLaw};
ghost use Rattle.nm_world.specs.CopyLaw.{CopyLaw};
ghost use Rattle.nm_world.specs.FrameLaw.{FrameLaw};
ghost use Rattle.nm_world.specs.ShadowLaw.{ShadowLaw};
ghost use Rattle.nm_world.specs.Laws.{AreAll};
ghost use Rattle.nm_world.specs.Seen.{world_of};

use nm_action::{Action, Reply};
use nm_core::State;

/// Makes one step of an actor. Where all the groups held, all of them hold after it.
pub fn all_laws(state: &mut State, actor: u32, action: Action) -> Reply
    requires actor { IsActor state.old.geometry actor }
    requires allowed { Allowed state.old.geometry (view_of state.old actor) action }
    ensures step { state.new ≡ step state.old actor action }
    ensures reply { result ≡ reply_to state.old actor action }
    ensures law { AreAll state.old.geometry (world_of state.old) → AreAll state.new.geometry (world_of state.new) }
{
    state.apply(actor, action)
}

/// One step of an actor, and the lock law: each lock and each turn is held by exactly the actor whose view says so, and what
/// operations know of words is so.
pub fn lock_law(state: &mut State, actor: u32, action: Action) -> Reply
    requires actor { IsActor state.old.geometry actor }
    requires allowed { Allowed state.old.geometry (view_of state.old actor) action }
    ensures step { state.new ≡ step state.old actor action }
    ensures reply { result ≡ reply_to state.old actor action }
    ensures law { AreAll state.old.geometry (world_of state.old) → LockLaw state.new.geometry (world_of state.new) }
{
    all_laws(state, actor, action)
}

/// One step of an actor, and the cache law: what processors cache stands in the table, or a flush is owed that will end it.
pub fn cache_law(state: &mut State, actor: u32, action: Action) -> Reply
    requires actor { IsActor state.old.geometry actor }
    requires allowed { Allowed state.old.geometry (view_of state.old actor) action }
    ensures step { state.new ≡ step state.old actor action }
    ensures reply { result ≡ reply_to state.old actor action }
    ensures law { AreAll state.old.geometry (world_of state.old) → CacheLaw state.new.geometry (world_of state.new) }
{
    all_laws(state, actor, action)
}

/// One step of an actor, and the copy law: what is said of the words of owned frames is so.
pub fn copy_law(state: &mut State, actor: u32, action: Action) -> Reply
    requires actor { IsActor state.old.geometry actor }
    requires allowed { Allowed state.old.geometry (view_of state.old actor) action }
    ensures step { state.new ≡ step state.old actor action }
    ensures reply { result ≡ reply_to state.old actor action }
    ensures law { AreAll state.old.geometry (world_of state.old) → CopyLaw state.new.geometry (sight_of state.new.geometry (world_of state.new)) }
{
    all_laws(state, actor, action)
}

/// One step of an actor, and the shadow law: each shadow equals its master.
pub fn shadow_law(state: &mut State, actor: u32, action: Action) -> Reply
    requires actor { IsActor state.old.geometry actor }
    requires allowed { Allowed state.old.geometry (view_of state.old actor) action }
    ensures step { state.new ≡ step state.old actor action }
    ensures reply { result ≡ reply_to state.old actor action }
    ensures law { AreAll state.old.geometry (world_of state.old) → ShadowLaw state.new.geometry (sight_of state.new.geometry (world_of state.new)) }
{
    all_laws(state, actor, action)
}

/// One step of an actor, and the frame law: each frame has one role, and table words name the homes of their pages.
pub fn frame_law(state: &mut State, actor: u32, action: Action) -> Reply
    requires actor { IsActor state.old.geometry actor }
    requires allowed { Allowed state.old.geometry (view_of state.old actor) action }
    ensures step { state.new ≡ step state.old actor action }
    ensures reply { result ≡ reply_to state.old actor action }
    ensures law { AreAll state.old.geometry (world_of state.old) → FrameLaw state.new.geometry (sight_of state.new.geometry (world_of state.new)) }
{
    all_laws(state, actor, action)
}
