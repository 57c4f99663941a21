//! The rows of the work that moves a page faster, and what all rows have: machines of 4 words a page. Actor 0 is the processor,
//! actor 1 the migrator, actor 2 the reclaimer.

use crate::actions::{
    BUMP, CALM, CANDIDATE, CLEAR, END, ENDED, GRANT, HOME, LOAD, LOCK, OFF, PEEK, PENDING, POLL,
    SEE, SEEN, UNLOCK, UNMARK, arm, copy_load, copy_store, does, done, gets, give, look, map, put,
    raise, release, scan, set_home, set_shadow, shadow_of, store, take, unmap, walk, word, zero,
};
use crate::driver::Line;
use crate::works::{End, Work};
use nm_action::{Action, Cell, Event, Reply};
use nm_core::Role;
use nm_fault::FaultEnd;
use nm_locked_task::LockedEnd;
use nm_txn::TxnEnd;

/// The machines of rows.
#[derive(Clone, Copy, Debug)]
pub enum Machine {
    /// The frames 0 and 1, and then 2 to 11; virtual page 0 maps the page.
    Plain,
    /// The same, and virtual page 1 maps it too.
    Aliased,
    /// The frames 0 and 1, then 2 and 3, and then 4 to 11; virtual page 0 maps the page.
    ThreeTiers,
    /// The frames 0 to 3, and then 4 to 11; virtual page 0 maps the page, and virtual page 1 maps it read-only.
    ReadOnly,
    /// The frames 0 to 2, and then 3 to 13; each of the virtual pages 0 to 2 maps the page of its number.
    ThreePages,
}

/// What is done in a row.
#[derive(Clone, Copy, Debug)]
pub enum Deed {
    /// These events.
    Acts(&'static [Event]),
    /// An actor's work as these lines say, and then alone with so many actions more; and how it ends.
    Works(u32, Work, &'static [&'static [Line]], u32, End),
}

/// A row: what is done, one after the other; then of some pages the home and the mark; and of some frames the role, and of a
/// master the page and the shadow.
#[derive(Clone, Copy)]
pub struct Row {
    pub name: &'static str,
    pub machine: Machine,
    pub deeds: &'static [Deed],
    pub pages: &'static [(u32, Option<u32>, u64)],
    pub frames: &'static [(u32, Role, Option<(u32, u32)>)],
}

/// The processor gives the page frame 2 of the second tier, with words 0, and maps virtual page 0 to it.
pub(crate) const DEMANDED: Deed = Deed::Acts(&[
    done!(0, LOCK),
    word!(0, look!(0), 0),
    word!(0, HOME, 0),
    done!(0, take!(1)),
    word!(0, scan!(1), 0x3ff),
    word!(0, give!(2), 0x3ff),
    done!(0, release!(1)),
    done!(0, zero!(2, 0)),
    done!(0, zero!(2, 1)),
    done!(0, zero!(2, 2)),
    done!(0, zero!(2, 3)),
    done!(0, set_home!(2)),
    done!(0, map!(0, 0x2007)),
    done!(0, UNLOCK),
]);

/// It reads the page through a translation that it acknowledges for.
pub(crate) const READ: Deed = Deed::Acts(&[
    word!(0, POLL, 0),
    done!(0, SEEN),
    word!(0, CALM, 0x2007),
    word!(0, PEEK, 0),
    done!(0, walk!(0x2005, false)),
    word!(0, LOAD, 0),
]);

/// The page is marked, as a candidate and then as pending.
const MARKED: Deed = Deed::Acts(&[done!(0, CANDIDATE), done!(1, PENDING)]);

/// A transaction takes frame 0 for a page in frame 2 whose table word is this.
macro_rules! taken_from_2 {
    ($word:expr) => {
        &[
            does!(LOCK),
            gets!(HOME, 3),
            gets!(look!(0), $word),
            does!(take!(0)),
            gets!(scan!(0), 3),
            gets!(give!(0), 3),
            does!(release!(0)),
            gets!(CLEAR, $word),
        ]
    };
}

/// The first flush: the processor acknowledges late.
const FIRST_FLUSH: &[Line] = &[
    gets!(raise!(0), 0),
    gets!(BUMP, 0),
    gets!(SEE, 0),
    Line::Other(word!(0, POLL, 1)),
    gets!(SEE, 0),
    Line::Other(done!(0, SEEN)),
    gets!(SEE, 1),
];

/// The second flush.
const SECOND_FLUSH: &[Line] = &[
    gets!(raise!(0), 1),
    gets!(BUMP, 1),
    gets!(SEE, 1),
    Line::Other(word!(0, POLL, 2)),
    Line::Other(done!(0, SEEN)),
    gets!(SEE, 2),
];

/// The page is copied into a frame; its last word is this, and the others are 0.
macro_rules! copied {
    ($frame:expr, $last:expr) => {
        &[
            gets!(copy_load!(0), 0),
            does!(copy_store!($frame, 0, 0)),
            gets!(copy_load!(1), 0),
            does!(copy_store!($frame, 1, 0)),
            gets!(copy_load!(2), 0),
            does!(copy_store!($frame, 2, 0)),
            gets!(copy_load!(3), $last),
            does!(copy_store!($frame, 3, $last)),
        ]
    };
}

/// The page, whose home was this frame, commits to another, and virtual page 0 is mapped so.
macro_rules! committed {
    ($old:expr, $new:expr, $word:expr) => {
        &[
            does!(set_home!($new)),
            gets!(shadow_of!($new), 0),
            does!(set_shadow!($new, Some($old))),
            does!(map!(0, $word)),
        ]
    };
}

/// The page wasn't marked, and is unlocked.
const UNMARKED: &[Line] = &[Line::Gives(UNMARK, Reply::Lost(0)), does!(UNLOCK)];

/// The frame 2 is put back.
pub(crate) const BACK_2: &[Line] = &[does!(take!(1)), gets!(put!(2), 0x3fe), does!(release!(1))];

/// The page isn't marked, frame 0 has it, and the frame 2 is its shadow.
pub(crate) const MASTER_0: &[(u32, Role, Option<(u32, u32)>)] = &[
    (0, Role::Mapped, Some((0, 2))),
    (1, Role::Free, None),
    (2, Role::Shadow, None),
    (3, Role::Free, None),
];

/// Frame 0 has the page, and no frame is a shadow.
pub(crate) const ALONE_0: &[(u32, Role, Option<(u32, u32)>)] = &[
    (0, Role::Mapped, None),
    (1, Role::Free, None),
    (2, Role::Free, None),
];

/// Frame 2 has the page, and no frame is a shadow.
pub(crate) const ALONE_2: &[(u32, Role, Option<(u32, u32)>)] = &[
    (0, Role::Free, None),
    (1, Role::Free, None),
    (2, Role::Mapped, None),
];

pub(crate) const TRANSACTION: Work = Work::Transaction(0, 0);

/// A promotion that leaves a shadow.
pub(crate) const COMMIT: &[Deed] = &[
    DEMANDED,
    READ,
    MARKED,
    Deed::Works(
        1,
        TRANSACTION,
        &[
            taken_from_2!(0x2015),
            FIRST_FLUSH,
            copied!(0, 0),
            &[gets!(unmap!(0), 0x2015)],
            SECOND_FLUSH,
            committed!(2, 0, 0x31),
            &[does!(UNMARK), does!(UNLOCK)],
        ],
        0,
        End::Transaction(TxnEnd::Committed),
    ),
];

fn commit() -> Row {
    Row {
        name: "commit",
        machine: Machine::Plain,
        deeds: COMMIT,
        pages: &[(0, Some(0), 0)],
        frames: MASTER_0,
    }
}

/// A walk that makes the word dirty between its clearing and its unmapping: the old word comes back.
const ABORT: &[Deed] = &[
    DEMANDED,
    READ,
    MARKED,
    Deed::Works(
        1,
        TRANSACTION,
        &[
            taken_from_2!(0x2015),
            &[
                Line::Other(done!(0, walk!(0x2015, true))),
                Line::Other(word!(0, store!(7), 0)),
            ],
            FIRST_FLUSH,
            copied!(0, 7),
            &[gets!(unmap!(0), 0x201d)],
            SECOND_FLUSH,
            &[
                does!(map!(0, 0x201d)),
                does!(UNLOCK),
                does!(take!(0)),
                gets!(put!(0), 2),
                does!(release!(0)),
            ],
        ],
        0,
        End::Transaction(TxnEnd::Aborted(0x201d)),
    ),
];

fn abort() -> Row {
    Row {
        name: "abort",
        machine: Machine::Plain,
        deeds: ABORT,
        pages: &[(0, Some(2), 2)],
        frames: ALONE_2,
    }
}

/// A store through a translation that was dirty already leaves no dirty bit, and is copied.
const DIRTY_CACHED_STORE: &[Deed] = &[
    DEMANDED,
    READ,
    Deed::Acts(&[done!(0, walk!(0x2015, true)), word!(0, store!(3), 0)]),
    Deed::Works(
        1,
        TRANSACTION,
        &[
            taken_from_2!(0x201d),
            &[Line::Other(word!(0, store!(4), 3))],
            FIRST_FLUSH,
            copied!(0, 4),
            &[gets!(unmap!(0), 0x2015)],
            SECOND_FLUSH,
            committed!(2, 0, 0x31),
            UNMARKED,
        ],
        0,
        End::Transaction(TxnEnd::Committed),
    ),
];

fn dirty_cached_store() -> Row {
    Row {
        name: "dirty cached store",
        machine: Machine::Plain,
        deeds: DIRTY_CACHED_STORE,
        pages: &[(0, Some(0), 0)],
        frames: MASTER_0,
    }
}

/// A transaction after which the page is in tier 0, a second one, and the fault of a store.
const SHADOW_FAULT: &[Deed] = &[
    DEMANDED,
    Deed::Works(1, TRANSACTION, &[], 29, End::Transaction(TxnEnd::Committed)),
    Deed::Works(
        1,
        TRANSACTION,
        &[&[does!(LOCK), gets!(HOME, 1)], UNMARKED],
        0,
        End::Transaction(TxnEnd::Gone),
    ),
    Deed::Works(
        0,
        Work::ShadowFault(0),
        &[
            &[
                does!(LOCK),
                gets!(look!(0), 0x21),
                gets!(HOME, 1),
                gets!(shadow_of!(0), 0x1_0000_0003),
                does!(set_shadow!(0, None)),
                gets!(GRANT, 0x21),
                does!(UNLOCK),
            ],
            BACK_2,
        ],
        0,
        End::Fault(FaultEnd::Granted(Some(2))),
    ),
    Deed::Works(
        0,
        Work::ShadowFault(0),
        &[&[does!(LOCK), gets!(look!(0), 0x05), does!(UNLOCK)]],
        0,
        End::Fault(FaultEnd::Ready),
    ),
];

fn shadow_fault() -> Row {
    Row {
        name: "shadow fault",
        machine: Machine::Plain,
        deeds: SHADOW_FAULT,
        pages: &[(0, Some(0), 0)],
        frames: ALONE_0,
    }
}

/// The shadow of a page is freed, but not where the page is locked, and not by a Reclaim of tier 0.
const RECLAIM: &[Deed] = &[
    DEMANDED,
    Deed::Works(1, TRANSACTION, &[], 29, End::Transaction(TxnEnd::Committed)),
    Deed::Works(2, Work::Reclaim(0, 1), &[], 0, End::Freed(0)),
    Deed::Acts(&[done!(1, LOCK)]),
    Deed::Works(
        2,
        Work::Reclaim(1, 1),
        &[&[Line::Gives(LOCK, Reply::Busy(2))]],
        0,
        End::Freed(0),
    ),
    Deed::Acts(&[done!(1, UNLOCK)]),
    Deed::Works(
        2,
        Work::Reclaim(1, 1),
        &[
            &[
                does!(LOCK),
                gets!(HOME, 1),
                gets!(shadow_of!(0), 0x1_0000_0003),
                does!(set_shadow!(0, None)),
                does!(UNLOCK),
            ],
            BACK_2,
        ],
        0,
        End::Freed(1),
    ),
];

fn reclaim() -> Row {
    Row {
        name: "reclaim",
        machine: Machine::Plain,
        deeds: RECLAIM,
        pages: &[(0, Some(0), 0)],
        frames: ALONE_0,
    }
}

/// The virtual page 1 is mapped to the page too.
pub(crate) const ALIASED: Deed = Deed::Acts(&[
    done!(0, LOCK),
    word!(0, look!(1), 0),
    word!(0, HOME, 3),
    word!(0, shadow_of!(2), 0),
    done!(0, map!(1, 0x2007)),
    done!(0, UNLOCK),
]);

/// The page has two table words, of which the first is this; both are armed.
macro_rules! armed {
    ($word:expr) => {
        &[
            does!(LOCK),
            gets!(HOME, 3),
            gets!(look!(0), $word),
            gets!(look!(1), 0x2007),
            gets!(arm!(0), $word),
            gets!(arm!(1), 0x2007),
        ]
    };
}

/// The page's lock is held by the reclaimer.
const REFUSED: &[Line] = &[Line::Gives(LOCK, Reply::Busy(3))];

/// A page that two virtual pages map: a transaction and a move of three words end Gone, all work ends Busy while its lock is
/// held, and a move of two words moves it. One task makes the moves.
const LOCKED_MOVE: &[Deed] = &[
    DEMANDED,
    ALIASED,
    READ,
    Deed::Acts(&[done!(0, END)]),
    Deed::Works(
        1,
        TRANSACTION,
        &[armed!(0x2015), UNMARKED],
        0,
        End::Transaction(TxnEnd::Gone),
    ),
    Deed::Works(
        1,
        Work::LockedMove(0, 3),
        &[armed!(0x2017), UNMARKED],
        0,
        End::LockedMove(LockedEnd::Gone),
    ),
    Deed::Acts(&[done!(2, LOCK)]),
    Deed::Works(
        1,
        Work::LockedMove(0, 2),
        &[REFUSED],
        0,
        End::LockedMove(LockedEnd::Busy),
    ),
    Deed::Works(
        1,
        TRANSACTION,
        &[REFUSED],
        0,
        End::Transaction(TxnEnd::Busy),
    ),
    Deed::Acts(&[done!(2, UNLOCK)]),
    Deed::Works(
        1,
        Work::LockedMove(0, 2),
        &[
            &[
                does!(LOCK),
                gets!(HOME, 3),
                gets!(look!(0), 0x2017),
                gets!(look!(1), 0x2007),
                does!(take!(0)),
                gets!(scan!(0), 3),
                gets!(give!(0), 3),
                does!(release!(0)),
                gets!(shadow_of!(2), 0),
                gets!(unmap!(0), 0x2017),
                gets!(unmap!(1), 0x2007),
                gets!(raise!(0), 0),
                gets!(raise!(1), 0),
                gets!(BUMP, 0),
                gets!(SEE, ENDED),
            ],
            copied!(0, 0),
            &[
                does!(set_home!(0)),
                does!(map!(0, 0x15)),
                does!(map!(1, 0x05)),
            ],
            UNMARKED,
            BACK_2,
        ],
        0,
        End::LockedMove(LockedEnd::Moved),
    ),
];

fn locked_move() -> Row {
    Row {
        name: "locked move",
        machine: Machine::Aliased,
        deeds: LOCKED_MOVE,
        pages: &[(0, Some(0), 0)],
        frames: ALONE_0,
    }
}

/// Only one frame of tier 0 is free, which stays free.
const TOO_FEW: &[Line] = &[
    does!(LOCK),
    gets!(HOME, 3),
    gets!(look!(0), 0x2007),
    does!(take!(0)),
    gets!(scan!(0), 2),
    does!(release!(0)),
    gets!(arm!(0), 0x2007),
];

/// The reclaimer owns frame 0, so that no more frames of tier 0 are free than its watermark.
const NO_FRAME: &[Deed] = &[
    DEMANDED,
    Deed::Acts(&[
        done!(2, take!(0)),
        word!(2, scan!(0), 3),
        word!(2, give!(0), 3),
        done!(2, release!(0)),
    ]),
    Deed::Works(
        1,
        TRANSACTION,
        &[TOO_FEW, UNMARKED],
        0,
        End::Transaction(TxnEnd::NoFrame(1)),
    ),
    Deed::Works(
        1,
        Work::LockedMove(0, 1),
        &[TOO_FEW, UNMARKED],
        0,
        End::LockedMove(LockedEnd::NoFrame(1)),
    ),
];

fn no_frame() -> Row {
    Row {
        name: "no frame",
        machine: Machine::Plain,
        deeds: NO_FRAME,
        pages: &[(0, Some(2), 0)],
        frames: &[
            (0, Role::Held, None),
            (1, Role::Free, None),
            (2, Role::Mapped, None),
        ],
    }
}

/// A page without a home.
const NO_HOME: &[Deed] = &[
    Deed::Works(
        1,
        TRANSACTION,
        &[&[does!(LOCK), gets!(HOME, 0)], UNMARKED],
        0,
        End::Transaction(TxnEnd::Gone),
    ),
    Deed::Works(
        1,
        Work::LockedMove(0, 1),
        &[&[does!(LOCK), gets!(HOME, 0)], UNMARKED],
        0,
        End::LockedMove(LockedEnd::Gone),
    ),
    Deed::Works(
        2,
        Work::Reclaim(1, 1),
        &[&[does!(LOCK), gets!(HOME, 0), does!(UNLOCK)]],
        0,
        End::Freed(0),
    ),
    Deed::Works(
        0,
        Work::ShadowFault(0),
        &[&[does!(LOCK), gets!(look!(0), 0), does!(UNLOCK)]],
        0,
        End::Fault(FaultEnd::Ready),
    ),
];

fn no_home() -> Row {
    Row {
        name: "no home",
        machine: Machine::Plain,
        deeds: NO_HOME,
        pages: &[(0, None, 0)],
        frames: &[(0, Role::Free, None), (2, Role::Free, None)],
    }
}

/// The processor gives the page frame 4 of the third tier.
const DEMANDED_LAST: Deed = Deed::Acts(&[
    done!(0, LOCK),
    word!(0, look!(0), 0),
    word!(0, HOME, 0),
    done!(0, take!(2)),
    word!(0, scan!(2), 0xff),
    word!(0, give!(4), 0xff),
    done!(0, release!(2)),
    done!(0, zero!(4, 0)),
    done!(0, zero!(4, 1)),
    done!(0, zero!(4, 2)),
    done!(0, zero!(4, 3)),
    done!(0, set_home!(4)),
    done!(0, map!(0, 0x4007)),
    done!(0, UNLOCK),
]);

/// The first steps at a page in frame 4, and those that take a frame of each of the faster tiers.
const FROM_4: &[Line] = &[does!(LOCK), gets!(HOME, 5), gets!(look!(0), 0x4007)];

const TAKE_2: &[Line] = &[
    does!(take!(1)),
    gets!(scan!(1), 3),
    gets!(give!(2), 3),
    does!(release!(1)),
];

const TAKE_0: &[Line] = &[
    does!(take!(0)),
    gets!(scan!(0), 3),
    gets!(give!(0), 3),
    does!(release!(0)),
];

/// The frame 4 is put back.
const BACK_4: &[Line] = &[does!(take!(2)), gets!(put!(4), 0xfe), does!(release!(2))];

/// A flush after the virtual page was raised this often; the processor is Off.
macro_rules! flushed {
    ($raises:expr, $bumps:expr) => {
        &[
            gets!(raise!(0), $raises),
            gets!(BUMP, $bumps),
            gets!(SEE, OFF),
        ]
    };
}

/// The page commits from the last of three tiers to the second, which leaves a shadow and the hint.
const TO_SECOND: Deed = Deed::Works(
    1,
    TRANSACTION,
    &[
        FROM_4,
        TAKE_2,
        &[gets!(CLEAR, 0x4007)],
        flushed!(0, 0),
        copied!(2, 0),
        &[gets!(unmap!(0), 0x4007)],
        flushed!(1, 1),
        committed!(4, 2, 0x2023),
        UNMARKED,
    ],
    0,
    End::Transaction(TxnEnd::Committed),
);

/// A transaction gives the shadow of its page up once it has a frame.
const THREE_TIERS: &[Deed] = &[
    DEMANDED_LAST,
    TO_SECOND,
    Deed::Works(
        1,
        TRANSACTION,
        &[
            &[
                does!(LOCK),
                gets!(HOME, 3),
                gets!(look!(0), 0x2023),
                gets!(shadow_of!(2), 0x1_0000_0005),
            ],
            TAKE_0,
            &[does!(set_shadow!(2, None))],
            BACK_4,
            &[gets!(CLEAR, 0x2023)],
            flushed!(2, 2),
            copied!(0, 0),
            &[gets!(unmap!(0), 0x2023)],
            flushed!(3, 3),
            committed!(2, 0, 0x21),
            UNMARKED,
        ],
        0,
        End::Transaction(TxnEnd::Committed),
    ),
];

fn three_tiers() -> Row {
    Row {
        name: "three tiers",
        machine: Machine::ThreeTiers,
        deeds: THREE_TIERS,
        pages: &[(0, Some(0), 0)],
        frames: &[
            (0, Role::Mapped, Some((0, 2))),
            (1, Role::Free, None),
            (2, Role::Shadow, None),
            (4, Role::Free, None),
        ],
    }
}

/// A locked move to the second of three tiers sets the hint.
const MOVE_WITH_HINT: &[Deed] = &[
    DEMANDED_LAST,
    Deed::Works(
        1,
        Work::LockedMove(0, 1),
        &[
            FROM_4,
            TAKE_2,
            &[gets!(shadow_of!(4), 0), gets!(unmap!(0), 0x4007)],
            flushed!(0, 0),
            copied!(2, 0),
            &[does!(set_home!(2)), does!(map!(0, 0x2007))],
            UNMARKED,
            BACK_4,
        ],
        0,
        End::LockedMove(LockedEnd::Moved),
    ),
];

fn move_with_hint() -> Row {
    Row {
        name: "move with hint",
        machine: Machine::ThreeTiers,
        deeds: MOVE_WITH_HINT,
        pages: &[(0, Some(2), 0)],
        frames: &[
            (0, Role::Free, None),
            (2, Role::Mapped, None),
            (4, Role::Free, None),
        ],
    }
}

/// A locked move gives the shadow of its page up, and keeps the right that was saved for it.
const MOVE_OF_A_MASTER: &[Deed] = &[
    DEMANDED_LAST,
    TO_SECOND,
    Deed::Works(
        1,
        Work::LockedMove(0, 1),
        &[
            &[does!(LOCK), gets!(HOME, 3), gets!(look!(0), 0x2023)],
            TAKE_0,
            &[
                gets!(shadow_of!(2), 0x1_0000_0005),
                does!(set_shadow!(2, None)),
            ],
            BACK_4,
            &[gets!(unmap!(0), 0x2023)],
            flushed!(2, 2),
            copied!(0, 0),
            &[does!(set_home!(0)), does!(map!(0, 0x21))],
            UNMARKED,
            &[does!(take!(1)), gets!(put!(2), 2), does!(release!(1))],
        ],
        0,
        End::LockedMove(LockedEnd::Moved),
    ),
];

fn move_of_a_master() -> Row {
    Row {
        name: "move of a master",
        machine: Machine::ThreeTiers,
        deeds: MOVE_OF_A_MASTER,
        pages: &[(0, Some(0), 0)],
        frames: &[
            (0, Role::Mapped, None),
            (2, Role::Free, None),
            (4, Role::Free, None),
        ],
    }
}

/// All rows.
pub fn rows() -> [Row; 11] {
    [
        commit(),
        abort(),
        dirty_cached_store(),
        shadow_fault(),
        reclaim(),
        locked_move(),
        no_frame(),
        no_home(),
        three_tiers(),
        move_with_hint(),
        move_of_a_master(),
    ]
}

pub(crate) use copied;
pub(crate) use flushed;
