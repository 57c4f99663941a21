//! The slow accesses of a run.

ghost use Rattle.std.specs.Prelude.{◌≡◌, ◌≤◌, IfOk, IfSome, IsSome, Some, None};
ghost use Rattle.std.specs.Option.{option_map};
ghost use Rattle.nm_base.specs.Geometry.{page_count, backing_page, tier_of};
ghost use Rattle.nm_base.specs.Ranges.{IsFrame, IsPage};
ghost use Rattle.nm_flat.specs.declared.access.Access.{Access};
ghost use Rattle.nm_core.specs.Runs.{IsRun, IsStep, access_of, after_event, state_after};
ghost use Rattle.nm_lab.specs.Slow.{home_in, slow_frame, slow_page, slow_access, slow_accesses};

use nm_action::{Action, Event, Reply};
use nm_base::Geometry;
use nm_core::State;
use std::alloc::{AllocError, Global};

/// The virtual page of the access that an event is, if it is one.
fn accessed_page(event: Event) -> Option<u32>
    ensures { result ≡ option_map (λ a. a.vpage) (access_of event) }
{
    match (event.action, event.reply) {
        (Action::Load { vpage, .. }, Reply::Word(_))
        | (Action::Store { vpage, .. }, Reply::Word(_))
        | (Action::Add { vpage, .. }, Reply::Word(_)) => Some(vpage),
        _ => None,
    }
}

/// 1 where a frame is outside the fastest tier.
fn slow_frame(g: &Geometry, frame: Option<u32>) -> u64
    requires { IfSome frame (IsFrame g.now) }
    ensures is { result ≡ slow_frame g.now frame }
    ensures few { result ≤ 1 }
{
    match frame {
        None => 0,
        Some(frame) => { if g.tier_of(frame) == 0 { 0 } else { 1 } }
    }
}

/// 1 where the home of a backing page is outside the fastest tier.
fn slow_page(state: &State, page: u32) -> u64
    requires { IsPage state.now.geometry page }
    ensures is { result ≡ slow_frame state.now.geometry (home_in state.now page) }
    ensures few { result ≤ 1 }
{
    slow_frame(state.geometry(), state.home(page))
}

/// 1 where an event is a slow access in this state of the machine, before it is made, and 0 else.
pub fn slow_access(state: &State, event: Event) -> u64
    ensures is { result ≡ slow_access state.now (access_of event) }
    ensures few { result ≤ 1 }
{
    let vpage = match accessed_page(event) {
        Some(vpage) => vpage,
        None => return 0,
    };
    match state.geometry().backing(vpage) {
        None => 0,
        Some(page) => slow_page(state, page),
    }
}

/// Makes a step.
fn make(state: &mut State, event: Event)
    requires { IsStep state.old event }
    ensures { state.new ≡ after_event state.old event }
{
    let _reply = state.apply(event.actor, event.action);
}

/// How many accesses of a run are slow: at how many of its loads, stores and adds the home of the page is outside the fastest
/// tier. The events are walked once more on a machine of its own, which is given back.
pub fn slow_accesses(alloc: Global, g: &Geometry, events: &[Event]) -> Result<u64, AllocError>
    requires { IsRun g.now events.now }
    ensures { IfOk result (λ n. n ≡ slow_accesses g.now events.now) }
{
    let mut state = State::start(alloc, g)?;
    let mut slow: u64 = 0;
    for event in events {
        slow += slow_access(&state, *event);
        make(&mut state, *event);
    }
    Ok(slow)
}
