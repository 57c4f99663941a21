//! Runs rows over a state, and reads it.

use nm_action::{Action, Reply};
use nm_base::{Geometry, VPage};
use nm_core::{EndWords, Role, State};
use nm_permit::allowed;
use std::alloc::Global;
use std::process::Abort;
use std::test::Fail;

/// An action of an actor, and the reply that must come; None where the action must not be permitted.
#[derive(Clone, Copy, Debug)]
pub struct Row {
    pub actor: u32,
    pub action: Action,
    pub reply: Option<Reply>,
}

const WRITABLE: Option<VPage> = Some(VPage {
    page: 0,
    writable: true,
});

const ALIAS: Option<VPage> = Some(VPage {
    page: 0,
    writable: false,
});

/// A machine with one processor, 4 words a page, two tiers, and one page, which a second virtual page reads.
pub fn machine(alloc: Global, fast: u32, slow: u32) -> Result<State, Fail> {
    let g = Geometry::new(alloc, 4, &[fast, slow], 1, &[WRITABLE, ALIAS])?;
    Ok(State::start(alloc, &g)?)
}

/// Makes a step where it is permitted.
fn make(state: &mut State, actor: u32, action: Action) -> Option<Reply> {
    if actor >= state.geometry().cpus + 2 {
        return None;
    }
    if !allowed(state.geometry(), state.view(actor), action) {
        return None;
    }
    Some(state.apply(actor, action))
}

/// Makes the steps of a table, and asserts each reply.
pub fn run(rt: &impl Abort, state: &mut State, rows: &[Row]) {
    for row in rows {
        assert_eq!(rt; make(state, row.actor, row.action), row.reply, "{row:?}");
    }
}

/// Whether the end words have room for those of a state.
fn has_room(state: &State, end: &EndWords) -> bool {
    let pages = state.geometry().pages() as usize;
    let frames = state.geometry().frames() as usize;
    end.homes.len() == pages
        && end.marks.len() == pages
        && end.shadows.len() == frames
        && end.roles.len() == frames
}

/// The end words of a state.
pub fn ending(rt: &impl Abort, alloc: Global, state: &State) -> Result<EndWords, Fail> {
    let mut end = EndWords::with_room(alloc, state.geometry())?;
    assert!(rt; has_room(state, &end));
    state.end_words(&mut end);
    Ok(end)
}

/// Asserts what the end words tell of page 0, of the role of frame 0, and whether the run is settled.
pub fn end_is(rt: &impl Abort, end: &EndWords, home: u32, role: Role, settled: bool) {
    assert!(rt; end.homes.as_slice() == [Some(home)].as_slice());
    assert!(rt; end.roles.first().copied() == Some(role));
    assert!(rt; end.settled == settled);
}

/// Asserts what the state tells of each frame: its role, and the page and shadow of a master.
pub fn frames_are(rt: &impl Abort, state: &State, wanted: &[(u32, Role, Option<(u32, u32)>)]) {
    for (frame, role, shadow) in wanted {
        assert!(rt; *frame < state.geometry().frames());
        assert!(rt;
            state.role(*frame) == *role && state.shadow(*frame) == *shadow,
            "{frame}"
        );
    }
}

/// Asserts the home and the mark of page 0.
pub fn page_is(rt: &impl Abort, state: &State, home: Option<u32>, mark: u64) {
    assert!(rt; 0 < state.geometry().pages());
    assert!(rt; state.home(0) == home && state.mark(0) == mark);
}
