//! Two seats on one thread, step by step: each reply, and at the end the words of the plain machine that made the merged
//! list.

ghost use Rattle.std.specs.Prelude.{◌≡◌};
ghost use Rattle.nm_arena.specs.Seats.{IsActorSeat};

use crate::driver::{Running, close, ends_as, geometry, make, started, take};
use nm_action::{AckTo, Action, Bit, Cell, Reply};
use nm_arena::{Arena, Seat};
use nm_base::Geometry;
use nm_core::State;
use std::test::Fail;

/// An action of the processor, 0, or of the migrator, 1, and its reply.
#[derive(Clone, Copy)]
struct Row {
    actor: u32,
    action: Action,
    reply: Reply,
}

macro_rules! done {
    ($actor:expr, $action:expr) => {
        Row { actor: $actor, action: $action, reply: Reply::Done }
    };
}

macro_rules! word {
    ($actor:expr, $action:expr, $word:expr) => {
        Row { actor: $actor, action: $action, reply: Reply::Word($word) }
    };
}

macro_rules! busy {
    ($actor:expr, $action:expr, $word:expr) => {
        Row { actor: $actor, action: $action, reply: Reply::Busy($word) }
    };
}

macro_rules! lost {
    ($actor:expr, $action:expr, $word:expr) => {
        Row { actor: $actor, action: $action, reply: Reply::Lost($word) }
    };
}

macro_rules! clear {
    ($index:expr) => {
        Action::CopyStore { page: None, frame: 0, index: $index, value: 0 }
    };
}

/// The processor maps page 0 to frame 0 and stores through it, while the migrator draws a number, is refused twice, scans
/// and marks.
const ROWS: [Row; 33] = [
    word!(0, Action::Poll, 0),
    done!(0, Action::Ack { to: AckTo::Seen }),
    word!(1, Action::Bump, 0),
    done!(0, Action::Lock { page: 0 }),
    busy!(1, Action::Lock { page: 0 }, 1),
    word!(0, Action::Look { vpage: 0 }, 0),
    word!(
        0,
        Action::Read {
            page: 0,
            cell: Cell::Home(0)
        },
        0
    ),
    done!(0, Action::TakeTurn { tier: 0 }),
    busy!(1, Action::TakeTurn { tier: 0 }, 1),
    word!(0, Action::Scan { tier: 0, index: 0 }, 0xffff),
    word!(0, Action::GiveFrame { frame: 0 }, 0xffff),
    done!(0, Action::ReleaseTurn { tier: 0 }),
    done!(1, Action::TakeTurn { tier: 0 }),
    word!(1, Action::Scan { tier: 0, index: 0 }, 0xfffe),
    done!(1, Action::ReleaseTurn { tier: 0 }),
    done!(0, clear!(0)),
    done!(0, clear!(1)),
    done!(0, clear!(2)),
    done!(0, clear!(3)),
    done!(0, Action::SetHome { page: 0, frame: 0 }),
    done!(0, Action::Map { vpage: 0, word: 5 }),
    done!(0, Action::Unlock { page: 0 }),
    word!(0, Action::Peek { vpage: 0 }, 0),
    done!(
        0,
        Action::Walk {
            vpage: 0,
            expect: 5,
            write: true
        }
    ),
    word!(
        0,
        Action::Store {
            vpage: 0,
            word: 1,
            value: 7
        },
        0
    ),
    done!(
        1,
        Action::Mark {
            page: 0,
            from: 0,
            to: 1
        }
    ),
    lost!(
        1,
        Action::Mark {
            page: 0,
            from: 0,
            to: 1
        },
        1
    ),
    done!(1, Action::Lock { page: 0 }),
    word!(1, Action::Look { vpage: 0 }, 29),
    word!(
        1,
        Action::Soften {
            vpage: 0,
            bit: Bit::Accessed
        },
        29
    ),
    done!(1, Action::Unlock { page: 0 }),
    word!(0, Action::Load { vpage: 0, word: 1 }, 7),
    word!(
        0,
        Action::Add {
            vpage: 0,
            word: 1,
            value: 3
        },
        7
    ),
];

/// Makes the steps of the table on both seats and on a plain machine: whether both give each reply of the table.
fn make_all(arena: &Arena, g: &Geometry, one: &mut Seat, two: &mut Seat, state: &mut State) -> bool
    requires geometry { arena.now.geometry ≡ g.now }
    requires one { IsActorSeat arena.now one.old }
    requires two { IsActorSeat arena.now two.old }
    ensures one { IsActorSeat arena.now one.new }
    ensures two { IsActorSeat arena.now two.new }
    ensures state { state.new.geometry ≡ state.old.geometry }
{
    let mut are_told = true;
    for row in &ROWS {
        let reply = if row.actor == 0 {
            take(arena, g, one, row.action)
        } else {
            take(arena, g, two, row.action)
        };
        let plain = make(state, row.actor, row.action);
        are_told = are_told && reply == Some(row.reply) && plain == reply;
    }
    are_told
}

#[test]
fn two_seats_make_the_merged_list(rt: HostRuntime) -> Result<(), Fail> {
    let g = geometry(rt.alloc())?;
    let mut state = State::start(rt.alloc(), &g)?;
    let Running {
        arena,
        first,
        mut one,
        mut two,
    } = started(rt.alloc(), &g)?;
    assert!(rt; make_all(&arena, &g, &mut one, &mut two, &mut state));
    let ended = Running {
        arena,
        first,
        one,
        two,
    };
    let end = close(&rt, rt.alloc(), &g, ended)?;
    assert!(rt; ends_as(rt.alloc(), &g, &end, &state)?);
    Ok(())
}
