//! Follows lists of events, and makes the steps of a list under a law.

use nm_action::{Event, Reply};
use nm_base::{Geometry, VPage};
use nm_core::{EndWords, State};
use nm_laws::{RunEnd, all_laws, cache_law, copy_law, frame_law, lock_law, run_list, shadow_law};
use nm_permit::allowed;
use std::alloc::Global;
use std::process::Abort;
use std::test::Fail;

/// A stretch of a list of events, and events of which none is a step after it.
#[derive(Clone, Copy)]
pub struct Stretch {
    pub events: &'static [Event],
    pub refused: &'static [Event],
}

/// By which function a step is made.
#[derive(Clone, Copy, Debug)]
pub enum Law {
    Apply,
    All,
    Lock,
    Cache,
    Copy,
    Shadow,
    Frame,
}

const WRITABLE: Option<VPage> = Some(VPage {
    page: 0,
    writable: true,
});

const ALIAS: Option<VPage> = Some(VPage {
    page: 0,
    writable: false,
});

/// A machine of one processor with 4 words a page, the frames 0 and 1 in its fast tier and 2 to 11 in its slow one, and
/// one page, which a second virtual page reads.
pub fn machine(alloc: Global) -> Result<State, Fail> {
    let g = Geometry::new(alloc, 4, &[2, 10], 1, &[WRITABLE, ALIAS])?;
    Ok(State::start(alloc, &g)?)
}

/// All events of some stretches, in order.
pub fn joined(alloc: Global, stretches: &[Stretch]) -> Result<Vec<Event>, Fail> {
    let mut events = Vec::new(alloc);
    for stretch in stretches {
        for event in stretch.events {
            events.push(*event)?;
        }
    }
    Ok(events)
}

/// Follows a list of events from the opening state.
pub fn follow(rt: &impl Abort, alloc: Global, events: &[Event]) -> Result<RunEnd, Fail> {
    assert!(rt; events.len() < 1000);
    let g = Geometry::new(alloc, 4, &[2, 10], 1, &[WRITABLE, ALIAS])?;
    let state = State::start(alloc, &g)?;
    Ok(run_list(state, events))
}

/// The place of the first event of a list that is no step, if there is one.
pub fn failure(rt: &impl Abort, alloc: Global, events: &[Event]) -> Result<Option<usize>, Fail> {
    match follow(rt, alloc, events)? {
        RunEnd::Whole(_) => Ok(None),
        RunEnd::Fails(number) => Ok(Some(number as usize)),
    }
}

/// The step of an event, where its action is permitted: the reply that came.
fn make(law: Law, state: &mut State, event: &Event) -> Option<Reply> {
    let Event { actor, action, .. } = *event;
    if actor >= state.geometry().cpus + 2 {
        return None;
    }
    if !allowed(state.geometry(), state.view(actor), action) {
        return None;
    }
    Some(match law {
        Law::Apply => state.apply(actor, action),
        Law::All => all_laws(state, actor, action),
        Law::Lock => lock_law(state, actor, action),
        Law::Cache => cache_law(state, actor, action),
        Law::Copy => copy_law(state, actor, action),
        Law::Shadow => shadow_law(state, actor, action),
        Law::Frame => frame_law(state, actor, action),
    })
}

/// Makes the steps of a list under a law, up to the first whose reply is another: whether there is none.
pub fn run(law: Law, state: &mut State, events: &[Event]) -> bool {
    for event in events {
        if make(law, state, event) != Some(event.reply) {
            return false;
        }
    }
    true
}

/// Whether the end words have room for those of a state.
fn has_room(state: &State, end: &EndWords) -> bool {
    let pages = state.geometry().pages() as usize;
    let frames = state.geometry().frames() as usize;
    end.homes.len() == pages
        && end.marks.len() == pages
        && end.shadows.len() == frames
        && end.roles.len() == frames
}

/// The end words of a state.
pub fn ending(rt: &impl Abort, alloc: Global, state: &State) -> Result<EndWords, Fail> {
    let mut end = EndWords::with_room(alloc, state.geometry())?;
    assert!(rt; has_room(state, &end));
    state.end_words(&mut end);
    Ok(end)
}

/// Whether two states end alike.
pub fn end_alike(one: &EndWords, other: &EndWords) -> bool {
    one.homes == other.homes
        && one.shadows == other.shadows
        && one.marks == other.marks
        && one.roles == other.roles
        && one.settled == other.settled
}
