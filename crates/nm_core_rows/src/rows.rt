//! Worked rows, and what a state tells afterwards.

use crate::driver::{Row, end_is, ending, frames_are, machine, page_is, run};
use nm_action::{AckTo, Action, Bit, Cell, Reply};
use nm_core::Role;
use std::test::Fail;

// The action is done.
macro_rules! done {
    ($actor:expr, $action:expr) => {
        Row { actor: $actor, action: $action, reply: Some(Reply::Done) }
    };
}

// The action gives this word.
macro_rules! word {
    ($actor:expr, $action:expr, $word:expr) => {
        Row { actor: $actor, action: $action, reply: Some(Reply::Word($word)) }
    };
}

// The lock or the turn is held, with this word.
macro_rules! busy {
    ($actor:expr, $action:expr, $word:expr) => {
        Row { actor: $actor, action: $action, reply: Some(Reply::Busy($word)) }
    };
}

// Another word than the expected one is found.
macro_rules! lost {
    ($actor:expr, $action:expr, $word:expr) => {
        Row { actor: $actor, action: $action, reply: Some(Reply::Lost($word)) }
    };
}

// The action is not permitted.
macro_rules! refused {
    ($actor:expr, $action:expr) => {
        Row { actor: $actor, action: $action, reply: None }
    };
}

macro_rules! read {
    ($cell:expr) => {
        Action::Read { page: 0, cell: $cell }
    };
}

macro_rules! look {
    ($vpage:expr) => {
        Action::Look { vpage: $vpage }
    };
}

macro_rules! peek {
    ($vpage:expr) => {
        Action::Peek { vpage: $vpage }
    };
}

macro_rules! age {
    ($vpage:expr) => {
        Action::Soften { vpage: $vpage, bit: Bit::Accessed }
    };
}

macro_rules! map {
    ($vpage:expr, $word:expr) => {
        Action::Map { vpage: $vpage, word: $word }
    };
}

macro_rules! walk {
    ($vpage:expr, $expect:expr, $write:expr) => {
        Action::Walk { vpage: $vpage, expect: $expect, write: $write }
    };
}

macro_rules! load {
    ($vpage:expr, $word:expr) => {
        Action::Load { vpage: $vpage, word: $word }
    };
}

macro_rules! store {
    ($vpage:expr, $word:expr, $value:expr) => {
        Action::Store { vpage: $vpage, word: $word, value: $value }
    };
}

macro_rules! add {
    ($vpage:expr, $word:expr, $value:expr) => {
        Action::Add { vpage: $vpage, word: $word, value: $value }
    };
}

macro_rules! mark {
    ($from:expr, $to:expr) => {
        Action::Mark { page: 0, from: $from, to: $to }
    };
}

macro_rules! turn {
    ($tier:expr) => {
        Action::TakeTurn { tier: $tier }
    };
}

macro_rules! scan {
    ($tier:expr, $index:expr) => {
        Action::Scan { tier: $tier, index: $index }
    };
}

macro_rules! release {
    ($tier:expr) => {
        Action::ReleaseTurn { tier: $tier }
    };
}

macro_rules! give {
    ($frame:expr) => {
        Action::GiveFrame { frame: $frame }
    };
}

macro_rules! put {
    ($frame:expr) => {
        Action::PutFrame { frame: $frame }
    };
}

macro_rules! set_home {
    ($frame:expr) => {
        Action::SetHome { page: 0, frame: $frame }
    };
}

macro_rules! set_shadow {
    ($master:expr, $shadow:expr) => {
        Action::SetShadow { page: 0, master: $master, shadow: $shadow }
    };
}

macro_rules! copy_load {
    ($index:expr) => {
        Action::CopyLoad { page: 0, index: $index }
    };
}

// The next word of a copy of page 0 in frame 0.
macro_rules! copy_store {
    ($index:expr, $value:expr) => {
        Action::CopyStore { page: Some(0), frame: 0, index: $index, value: $value }
    };
}

// The next 0 of a frame for a page that has none.
macro_rules! zero {
    ($frame:expr, $index:expr) => {
        Action::CopyStore { page: None, frame: $frame, index: $index, value: 0 }
    };
}

const LOCK: Action = Action::Lock { page: 0 };

const UNLOCK: Action = Action::Unlock { page: 0 };

const POLL: Action = Action::Poll;

const BUMP: Action = Action::Bump;

const SEEN: Action = Action::Ack { to: AckTo::Seen };

const END: Action = Action::Ack { to: AckTo::End };

const SEE: Action = Action::SeeAck { cpu: 0 };

const UNMAP: Action = Action::Unmap { vpage: 0 };

const ARM: Action = Action::Arm { vpage: 0 };

const GRANT: Action = Action::Grant { vpage: 0 };

const CLEAR: Action = Action::ClearDirty { vpage: 0 };

const RAISE: Action = Action::Raise { vpage: 0 };

const HOME: Action = read!(Cell::Home(0));

const CALM: Action = Action::Soften {
    vpage: 0,
    bit: Bit::Hint,
};

const OFF: u64 = u64::MAX - 1;

const OPENING: &[Row] = &[
    refused!(1, POLL),
    refused!(0, load!(0, 0)),
    refused!(0, SEEN),
    refused!(0, Action::Lock { page: 1 }),
    refused!(0, UNLOCK),
    refused!(0, scan!(1, 0)),
    refused!(0, mark!(2, 0)),
    refused!(3, LOCK),
    word!(0, look!(0), 0),
    word!(1, BUMP, 0),
    word!(0, POLL, 1),
];

/// What opening views permit: actor 0 is the processor, actor 1 the migrator.
fn opening() -> &'static [Row] {
    OPENING
}

const HELD: &[Row] = &[
    done!(0, LOCK),
    refused!(0, LOCK),
    busy!(1, LOCK, 1),
    busy!(1, LOCK, 1),
    done!(0, mark!(0, 1)),
    lost!(0, mark!(0, 1), 1),
    lost!(0, mark!(0, 1), 1),
    lost!(0, mark!(2, 0), 1),
    done!(2, turn!(1)),
    busy!(0, turn!(1), 3),
    done!(0, UNLOCK),
    done!(1, LOCK),
];

/// A lock or a turn that is held answers Busy, a mark that is another answers Lost; each stays as it was.
fn held() -> &'static [Row] {
    HELD
}

const SHOOTDOWN: &[Row] = &[
    refused!(0, SEEN),
    word!(1, SEE, OFF),
    word!(0, POLL, 0),
    done!(0, SEEN),
    word!(1, BUMP, 0),
    word!(1, SEE, 0),
    word!(0, POLL, 1),
    done!(0, SEEN),
    word!(1, SEE, 1),
    done!(0, END),
    word!(1, SEE, u64::MAX),
];

/// Bumps are polled and acknowledged, and the acknowledgement is seen.
fn shootdown() -> &'static [Row] {
    SHOOTDOWN
}

const DEMAND: &[Row] = &[
    done!(0, LOCK),
    word!(0, look!(0), 0),
    word!(0, HOME, 0),
    done!(0, turn!(0)),
    word!(0, scan!(0, 0), 15),
    word!(0, give!(0), 15),
    done!(0, release!(0)),
    refused!(0, set_home!(0)),
    done!(0, zero!(0, 0)),
    done!(0, zero!(0, 1)),
    done!(0, zero!(0, 2)),
    done!(0, zero!(0, 3)),
    refused!(0, map!(0, 5)),
    done!(0, set_home!(0)),
];

/// Page 0 gets frame 0, its first one, and virtual page 0 is mapped to it.
fn demand() -> &'static [Row] {
    DEMAND
}

const WALKS: &[Row] = &[
    done!(0, map!(0, 5)),
    word!(0, look!(1), 0),
    done!(0, map!(1, 1)),
    done!(0, UNLOCK),
    word!(0, POLL, 0),
    done!(0, SEEN),
    word!(0, peek!(0), 0),
    done!(0, walk!(0, 5, true)),
    word!(0, peek!(1), 0),
    lost!(0, walk!(1, 5, false), 1),
    done!(0, walk!(1, 1, false)),
    word!(0, look!(0), 29),
    word!(0, look!(1), 17),
    word!(1, BUMP, 0),
    word!(0, POLL, 1),
];

/// Both virtual pages are mapped, and the processor walks through both.
fn walks() -> &'static [Row] {
    WALKS
}

const KEPT: &[Row] = &[
    word!(0, peek!(0), 0),
    word!(0, peek!(1), 0),
    done!(0, SEEN),
    word!(0, load!(0, 0), 0),
    word!(0, load!(1, 0), 0),
    word!(0, store!(0, 0, u64::MAX), 0),
    word!(0, add!(0, 0, 3), u64::MAX),
    word!(0, load!(1, 0), 2),
    word!(0, age!(1), 17),
    word!(0, look!(1), 1),
    refused!(0, store!(1, 0, 1)),
];

/// An acknowledgement keeps the translations that were peeked and not raised; loads, stores and adds go through them.
fn kept() -> &'static [Row] {
    KEPT
}

const DROPPED: &[Row] = &[
    word!(0, peek!(0), 0),
    done!(0, SEEN),
    word!(0, load!(0, 0), 0),
    refused!(0, load!(1, 0)),
];

/// A translation whose page was not peeked again is dropped.
fn dropped() -> &'static [Row] {
    DROPPED
}

const GRANTED: &[Row] = &[
    // Present, and the right to write is saved.
    done!(0, map!(0, 33)),
    done!(0, UNLOCK),
    refused!(0, GRANT),
    done!(0, LOCK),
    word!(0, look!(0), 33),
    word!(0, HOME, 1),
    refused!(0, GRANT),
    word!(0, read!(Cell::Shadow(0)), 0),
    word!(0, GRANT, 33),
    done!(0, UNLOCK),
    word!(0, look!(0), 5),
];

/// The saved right to write is granted.
fn granted() -> &'static [Row] {
    GRANTED
}

const ACCESSES: &[Row] = &[
    word!(0, POLL, 0),
    done!(0, SEEN),
    refused!(0, load!(0, 1)),
    word!(0, peek!(0), 0),
    lost!(0, walk!(0, 33, false), 5),
    done!(0, walk!(0, 5, false)),
    word!(0, load!(0, 1), 0),
    refused!(0, store!(0, 1, 7)),
    done!(0, walk!(0, 21, true)),
    word!(0, store!(0, 1, 7), 0),
    word!(0, add!(0, 1, u64::MAX), 7),
    word!(0, load!(0, 1), 6),
    word!(0, age!(0), 29),
    done!(0, LOCK),
    word!(0, look!(0), 13),
    word!(0, ARM, 13),
    word!(0, CALM, 15),
    done!(0, UNLOCK),
    word!(0, look!(0), 13),
    done!(0, turn!(0)),
    word!(0, scan!(0, 0), 14),
    refused!(0, give!(2)),
    word!(0, give!(1), 14),
    word!(0, put!(1), 12),
    done!(0, release!(0)),
];

/// Stores and adds go only through a walk for writing; a hint is set and cleared; a frame is taken and put back.
fn accesses() -> &'static [Row] {
    ACCESSES
}

const SLOW: &[Row] = &[
    done!(0, LOCK),
    word!(0, look!(0), 0),
    word!(0, look!(1), 0),
    word!(0, HOME, 0),
    done!(0, turn!(1)),
    word!(0, scan!(1, 0), 1023),
    word!(0, give!(2), 1023),
    done!(0, release!(1)),
    done!(0, zero!(2, 0)),
    done!(0, zero!(2, 1)),
    done!(0, zero!(2, 2)),
    done!(0, zero!(2, 3)),
    done!(0, set_home!(2)),
    done!(0, map!(0, 0x2005)),
    done!(0, UNLOCK),
];

/// Page 0 gets frame 2, the first one of the slow tier, and virtual page 0 is mapped to it.
fn slow() -> &'static [Row] {
    SLOW
}

const CLEARED: &[Row] = &[
    done!(1, LOCK),
    word!(1, look!(0), 0x2005),
    refused!(1, CLEAR),
    word!(1, look!(1), 0),
    word!(1, HOME, 3),
    word!(1, read!(Cell::Shadow(2)), 0),
    done!(1, turn!(0)),
    word!(1, scan!(0, 0), 3),
    word!(1, give!(0), 3),
    done!(1, release!(0)),
    word!(1, CLEAR, 0x2005),
    refused!(1, BUMP),
    word!(1, RAISE, 0),
    word!(1, BUMP, 0),
    refused!(1, copy_load!(0)),
    word!(1, SEE, OFF),
];

/// The migrator begins to promote the page to frame 0: it clears the dirty bit, and flushes.
fn cleared() -> &'static [Row] {
    CLEARED
}

const COPIED: &[Row] = &[
    word!(1, copy_load!(0), 0),
    refused!(1, copy_store!(1, 0)),
    done!(1, copy_store!(0, 0)),
    word!(1, copy_load!(1), 0),
    done!(1, copy_store!(1, 0)),
    word!(1, copy_load!(2), 0),
    done!(1, copy_store!(2, 0)),
    word!(1, copy_load!(3), 0),
    done!(1, copy_store!(3, 0)),
];

/// The copy.
fn copied() -> &'static [Row] {
    COPIED
}

const COMMITTED: &[Row] = &[
    word!(1, UNMAP, 0x2005),
    word!(1, RAISE, 1),
    word!(1, BUMP, 1),
    refused!(1, set_home!(0)),
    word!(1, SEE, OFF),
    refused!(1, map!(0, 0x2005)),
    done!(1, set_home!(0)),
    done!(1, set_shadow!(0, Some(2))),
    done!(1, map!(0, 0x21)),
    done!(1, UNLOCK),
];

/// The commit: the page has its new home, and the old one is its shadow.
fn committed() -> &'static [Row] {
    COMMITTED
}

const UNSHADOWED: &[Row] = &[
    done!(2, LOCK),
    word!(2, HOME, 1),
    refused!(2, set_shadow!(0, None)),
    word!(2, read!(Cell::Shadow(0)), 0x1_0000_0003),
    refused!(2, set_shadow!(2, None)),
    done!(2, set_shadow!(0, None)),
    done!(2, UNLOCK),
    done!(2, turn!(1)),
    word!(2, put!(2), 1022),
    done!(2, release!(1)),
];

/// The shadow is taken away, and its frame put back.
fn unshadowed() -> &'static [Row] {
    UNSHADOWED
}

const ABORTED: &[Row] = &[
    word!(0, POLL, 1),
    done!(0, SEEN),
    word!(0, peek!(0), 1),
    done!(0, walk!(0, 0x2005, true)),
    word!(0, store!(0, 3, 9), 0),
    word!(1, UNMAP, 0x201d),
    word!(1, RAISE, 1),
    word!(1, BUMP, 1),
    word!(1, SEE, 1),
    refused!(1, map!(0, 0x201d)),
    word!(0, POLL, 2),
    word!(0, peek!(0), 2),
    done!(0, SEEN),
    refused!(0, load!(0, 3)),
    word!(1, SEE, 2),
    refused!(1, set_home!(0)),
    refused!(1, map!(0, 0x2005)),
    refused!(1, UNLOCK),
    done!(1, map!(0, 0x201d)),
    done!(1, UNLOCK),
];

/// A store through a walk since the dirty bit was cleared: the word that is taken is dirty, and only it goes back.
fn aborted() -> &'static [Row] {
    ABORTED
}

#[test]
fn locks_and_bumps(rt: HostRuntime) -> Result<(), Fail> {
    for rows in [opening(), held(), shootdown()] {
        let mut state = machine(rt.alloc(), 4, 8)?;
        run(&rt, &mut state, rows);
    }
    Ok(())
}

#[test]
fn translations(rt: HostRuntime) -> Result<(), Fail> {
    for rows in [kept(), dropped()] {
        let mut state = machine(rt.alloc(), 4, 8)?;
        run(&rt, &mut state, demand());
        run(&rt, &mut state, walks());
        run(&rt, &mut state, rows);
    }
    Ok(())
}

#[test]
fn grants_and_accesses(rt: HostRuntime) -> Result<(), Fail> {
    let mut state = machine(rt.alloc(), 4, 8)?;
    for rows in [demand(), granted(), accesses()] {
        run(&rt, &mut state, rows);
    }
    frames_are(
        &rt,
        &state,
        &[(0, Role::Mapped, None), (1, Role::Free, None)],
    );
    Ok(())
}

#[test]
fn promotion(rt: HostRuntime) -> Result<(), Fail> {
    let mut state = machine(rt.alloc(), 2, 10)?;
    for rows in [slow(), cleared(), copied()] {
        run(&rt, &mut state, rows);
    }
    end_is(&rt, &ending(&rt, rt.alloc(), &state)?, 2, Role::Held, false);
    run(&rt, &mut state, committed());
    run(&rt, &mut state, &[done!(0, END)]);
    page_is(&rt, &state, Some(0), 0);
    frames_are(&rt, &state, SHADOWED);
    let after = ending(&rt, rt.alloc(), &state)?;
    end_is(&rt, &after, 0, Role::Mapped, true);
    assert!(rt; after.shadows.first().copied() == Some(Some((0, 2))));
    assert!(rt; after.marks.as_slice() == [0].as_slice());
    Ok(())
}

/// The frames after a promotion.
const SHADOWED: &[(u32, Role, Option<(u32, u32)>)] = &[
    (0, Role::Mapped, Some((0, 2))),
    (1, Role::Free, None),
    (2, Role::Shadow, None),
];

#[test]
fn shadows(rt: HostRuntime) -> Result<(), Fail> {
    let mut state = machine(rt.alloc(), 2, 10)?;
    for rows in [slow(), cleared(), copied(), committed(), unshadowed()] {
        run(&rt, &mut state, rows);
    }
    frames_are(
        &rt,
        &state,
        &[(0, Role::Mapped, None), (2, Role::Free, None)],
    );
    Ok(())
}

#[test]
fn aborts(rt: HostRuntime) -> Result<(), Fail> {
    let mut state = machine(rt.alloc(), 2, 10)?;
    for rows in [slow(), cleared(), copied(), aborted()] {
        run(&rt, &mut state, rows);
    }
    page_is(&rt, &state, Some(2), 0);
    frames_are(
        &rt,
        &state,
        &[(0, Role::Held, None), (2, Role::Mapped, None)],
    );
    Ok(())
}
