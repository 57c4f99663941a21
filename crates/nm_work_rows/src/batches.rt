//! The rows of batches, at the pages 0 to 2, of which each has the virtual page of its number. Actor 0 is the processor, actor
//! 1 the migrator.

use crate::actions::{
    BUMP, POLL, SEE, SEEN, does, done, gets, give, look, map, put, raise, release, scan, shadow_of,
    take, unmap, word,
};
use crate::driver::Line;
use crate::scenes::{Deed, Machine, Row};
use crate::works::{End, Work};
use nm_action::{Action, Bit, Cell, Event, Reply};
use nm_core::Role;
use nm_txn::TxnEnd;

macro_rules! lock {
    ($page:expr) => {
        Action::Lock { page: $page }
    };
}

macro_rules! unlock {
    ($page:expr) => {
        Action::Unlock { page: $page }
    };
}

macro_rules! home {
    ($page:expr) => {
        Action::Read { page: $page, cell: Cell::Home($page) }
    };
}

macro_rules! clear {
    ($vpage:expr) => {
        Action::ClearDirty { vpage: $vpage }
    };
}

// The word at this index of a page, which is this, is copied into a frame.
macro_rules! copied {
    ($page:expr, $frame:expr, $index:expr, $value:expr) => {
        &[
            gets!(Action::CopyLoad { page: $page, index: $index }, $value),
            does!(Action::CopyStore { page: Some($page), frame: $frame, index: $index, value: $value }),
        ]
    };
}

// The processor gives a page a frame of the second tier, whose free frames are these, and maps the virtual page to it.
macro_rules! demanded {
    ($page:expr, $frame:expr, $free:expr) => {
        Deed::Acts(&[
            done!(0, lock!($page)),
            word!(0, look!($page), 0),
            word!(0, home!($page), 0),
            done!(0, take!(1)),
            word!(0, scan!(1), $free),
            word!(0, give!($frame), $free),
            done!(0, release!(1)),
            done!(0, Action::CopyStore { page: None, frame: $frame, index: 0, value: 0 }),
            done!(0, Action::CopyStore { page: None, frame: $frame, index: 1, value: 0 }),
            done!(0, Action::CopyStore { page: None, frame: $frame, index: 2, value: 0 }),
            done!(0, Action::CopyStore { page: None, frame: $frame, index: 3, value: 0 }),
            done!(0, Action::SetHome { page: $page, frame: $frame }),
            done!(0, map!($page, ($frame << 12) | 7)),
            done!(0, unlock!($page)),
        ])
    };
}

// A piece is locked and looked at, and the free frames of tier 0 are told.
macro_rules! begun {
    ($page:expr, $home:expr, $word:expr, $free:expr) => {
        &[
            does!(lock!($page)),
            gets!(home!($page), $home),
            gets!(look!($page), $word),
            does!(take!(0)),
            gets!(scan!(0), $free),
        ]
    };
}

// It has taken a frame of these free ones, and its word is cleared.
macro_rules! ready {
    ($page:expr, $frame:expr, $word:expr, $free:expr) => {
        &[
            gets!(give!($frame), $free),
            does!(release!(0)),
            gets!(clear!($page), $word),
            gets!(raise!($page), 0),
        ]
    };
}

/// The processor has acknowledged, and calmed virtual page 1.
const CALMED: Deed = Deed::Acts(&[
    word!(0, POLL, 0),
    done!(0, SEEN),
    word!(
        0,
        Action::Soften {
            vpage: 1,
            bit: Bit::Hint
        },
        0x4007
    ),
    word!(0, Action::Peek { vpage: 1 }, 0),
]);

/// The third piece finds one free frame, which is the watermark `min`.
const NO_FRAME: &[Line] = &[
    does!(release!(0)),
    gets!(Action::Arm { vpage: 2 }, 0x5007),
    Line::Gives(
        Action::Mark {
            page: 2,
            from: 2,
            to: 0,
        },
        Reply::Lost(0),
    ),
    does!(unlock!(2)),
];

/// The first flush. The processor stores to page 1 before it acknowledges.
const FLUSH: &[Line] = &[
    gets!(BUMP, 0),
    gets!(SEE, 0),
    Line::Other(done!(
        0,
        Action::Walk {
            vpage: 1,
            expect: 0x4005,
            write: true
        }
    )),
    Line::Other(word!(
        0,
        Action::Store {
            vpage: 1,
            word: 3,
            value: 7
        },
        0
    )),
    Line::Other(word!(0, POLL, 1)),
    Line::Other(done!(0, SEEN)),
    gets!(SEE, 1),
];

/// The two pieces that are left are unmapped; the word of the second is dirty.
const UNMAPPED: &[Line] = &[
    gets!(unmap!(0), 0x3007),
    gets!(raise!(0), 1),
    gets!(unmap!(1), 0x401d),
    gets!(raise!(1), 1),
];

/// The second flush.
const FLUSH_AGAIN: &[Line] = &[
    gets!(BUMP, 1),
    gets!(SEE, 1),
    Line::Other(word!(0, POLL, 2)),
    Line::Other(done!(0, SEEN)),
    gets!(SEE, 2),
];

/// The first page has its new home, and its old one is the shadow.
const COMMITTED: &[Line] = &[
    does!(Action::SetHome { page: 0, frame: 0 }),
    gets!(shadow_of!(0), 0),
    does!(Action::SetShadow {
        page: 0,
        master: 0,
        shadow: Some(3)
    }),
    does!(map!(0, 0x21)),
    Line::Gives(
        Action::Mark {
            page: 0,
            from: 2,
            to: 0,
        },
        Reply::Lost(0),
    ),
    does!(unlock!(0)),
];

/// The second page has its word again, and the frame is put back.
const ABORTED: &[Line] = &[
    does!(map!(1, 0x401d)),
    does!(unlock!(1)),
    does!(take!(0)),
    gets!(put!(1), 4),
    does!(release!(0)),
];

/// A batch of three pieces: no frame is left for the third before the first flush; of the other two, which go through both
/// flushes together, one commits, and one is stored to meanwhile and aborts.
const THREE_ENDS: &[Deed] = &[
    demanded!(0, 3, 0x7ff),
    demanded!(1, 4, 0x7fe),
    demanded!(2, 5, 0x7fc),
    CALMED,
    Deed::Works(
        1,
        Work::Batch(0, 1, 2),
        &[
            begun!(0, 4, 0x3007, 7),
            ready!(0, 0, 0x3007, 7),
            begun!(1, 5, 0x4005, 6),
            ready!(1, 1, 0x4005, 6),
            begun!(2, 6, 0x5007, 4),
            NO_FRAME,
            FLUSH,
            copied!(0, 0, 0, 0),
            copied!(0, 0, 1, 0),
            copied!(0, 0, 2, 0),
            copied!(0, 0, 3, 0),
            copied!(1, 1, 0, 0),
            copied!(1, 1, 1, 0),
            copied!(1, 1, 2, 0),
            copied!(1, 1, 3, 7),
            UNMAPPED,
            FLUSH_AGAIN,
            COMMITTED,
            ABORTED,
        ],
        0,
        End::Batch(
            TxnEnd::Committed,
            TxnEnd::Aborted(0x401d),
            TxnEnd::NoFrame(1),
        ),
    ),
];

/// The rows of batches.
pub(crate) fn batches() -> [Row; 1] {
    [Row {
        name: "batch with three ends",
        machine: Machine::ThreePages,
        deeds: THREE_ENDS,
        pages: &[(0, Some(0), 0), (1, Some(4), 0), (2, Some(5), 0)],
        frames: &[
            (0, Role::Mapped, Some((0, 3))),
            (1, Role::Free, None),
            (2, Role::Free, None),
            (3, Role::Shadow, None),
            (4, Role::Mapped, None),
            (5, Role::Mapped, None),
        ],
    }]
}
