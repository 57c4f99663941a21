//! The rows of demotions. Actor 0 is the processor, actor 2 the reclaimer.

use crate::actions::{
    BUMP, HOME, LOAD, LOCK, OFF, PEEK, POLL, SEE, SEEN, UNLOCK, copy_load, copy_store, does, done,
    gets, give, look, map, put, raise, release, scan, set_home, set_shadow, shadow_of, store, take,
    unmap, walk, word,
};
use crate::driver::Line;
use crate::scenes::{ALIASED, ALONE_2, DEMANDED, Deed, Machine, Row, TRANSACTION, copied};
use crate::works::{End, Work};
use nm_action::{Action, Cell, Event, Reply};
use nm_demote_task::DemoteEnd;
use nm_fault::FaultEnd;
use nm_locked_task::LockedEnd;
use nm_txn::TxnEnd;

const DEMOTION: Work = Work::Demotion(0);

/// The page commits to frame 0, which leaves the frame 2 as its shadow.
const COMMITTED: Deed = Deed::Works(1, TRANSACTION, &[], 29, End::Transaction(TxnEnd::Committed));

/// The frame 0 is put back.
const BACK_0: &[Line] = &[does!(take!(0)), gets!(put!(0), 2), does!(release!(0))];

/// The shadow of a page becomes its home, and no word is copied. The processor reads the page before, and acknowledges.
const REMAPPING: &[Deed] = &[
    DEMANDED,
    COMMITTED,
    Deed::Acts(&[
        word!(0, POLL, 2),
        done!(0, SEEN),
        word!(0, PEEK, 2),
        done!(0, walk!(0x21, false)),
        word!(0, LOAD, 0),
    ]),
    Deed::Works(
        2,
        DEMOTION,
        &[
            &[
                does!(LOCK),
                gets!(HOME, 1),
                gets!(shadow_of!(0), 0x1_0000_0003),
                gets!(look!(0), 0x31),
                gets!(unmap!(0), 0x31),
                gets!(raise!(0), 2),
                gets!(BUMP, 2),
                gets!(SEE, 2),
                Line::Other(word!(0, POLL, 3)),
                Line::Other(done!(0, SEEN)),
                gets!(SEE, 3),
                does!(set_shadow!(0, None)),
                does!(set_home!(2)),
                does!(map!(0, 0x2007)),
                does!(UNLOCK),
            ],
            BACK_0,
        ],
        0,
        End::Demotion(DemoteEnd::Remapped),
    ),
];

fn remapping() -> Row {
    Row {
        name: "demotion by remapping",
        machine: Machine::Plain,
        deeds: REMAPPING,
        pages: &[(0, Some(2), 0)],
        frames: ALONE_2,
    }
}

/// A page that was written since it was moved has no shadow, and is copied; its word stays dirty.
const COPYING: &[Deed] = &[
    DEMANDED,
    COMMITTED,
    Deed::Works(
        0,
        Work::ShadowFault(0),
        &[],
        10,
        End::Fault(FaultEnd::Granted(Some(2))),
    ),
    Deed::Acts(&[
        word!(0, POLL, 2),
        done!(0, SEEN),
        word!(0, PEEK, 2),
        done!(0, walk!(0x05, true)),
        word!(0, store!(7), 0),
    ]),
    Deed::Works(
        2,
        DEMOTION,
        &[
            &[
                does!(LOCK),
                gets!(HOME, 1),
                gets!(shadow_of!(0), 0),
                gets!(look!(0), 0x1d),
                does!(take!(1)),
                gets!(scan!(1), 0x3ff),
                gets!(give!(2), 0x3ff),
                does!(release!(1)),
                gets!(unmap!(0), 0x1d),
                gets!(raise!(0), 2),
                gets!(BUMP, 2),
                gets!(SEE, 2),
                Line::Other(word!(0, store!(8), 7)),
                Line::Other(word!(0, POLL, 3)),
                Line::Other(done!(0, SEEN)),
                gets!(SEE, 3),
            ],
            copied!(2, 8),
            &[does!(set_home!(2)), does!(map!(0, 0x200f)), does!(UNLOCK)],
            BACK_0,
        ],
        0,
        End::Demotion(DemoteEnd::Copied),
    ),
];

fn copying() -> Row {
    Row {
        name: "demotion by copy",
        machine: Machine::Plain,
        deeds: COPYING,
        pages: &[(0, Some(2), 0)],
        frames: ALONE_2,
    }
}

/// A page with two table words, which a locked move brought to tier 0: both words are taken, and both are mapped again.
const TWO_WORDS: &[Deed] = &[
    DEMANDED,
    ALIASED,
    Deed::Works(
        1,
        Work::LockedMove(0, 2),
        &[],
        31,
        End::LockedMove(LockedEnd::Moved),
    ),
    Deed::Works(
        2,
        DEMOTION,
        &[
            &[
                does!(LOCK),
                gets!(HOME, 1),
                gets!(shadow_of!(0), 0),
                gets!(look!(0), 0x05),
                gets!(look!(1), 0x05),
                does!(take!(1)),
                gets!(scan!(1), 0x3ff),
                gets!(give!(2), 0x3ff),
                does!(release!(1)),
                gets!(unmap!(0), 0x05),
                gets!(unmap!(1), 0x05),
                gets!(raise!(0), 1),
                gets!(raise!(1), 1),
                gets!(BUMP, 1),
                gets!(SEE, OFF),
            ],
            copied!(2, 0),
            &[
                does!(set_home!(2)),
                does!(map!(0, 0x2007)),
                does!(map!(1, 0x2007)),
                does!(UNLOCK),
            ],
            BACK_0,
        ],
        0,
        End::Demotion(DemoteEnd::Copied),
    ),
];

fn two_words() -> Row {
    Row {
        name: "demotion of two words",
        machine: Machine::Aliased,
        deeds: TWO_WORDS,
        pages: &[(0, Some(2), 0)],
        frames: ALONE_2,
    }
}

/// A page without a home, and one whose home is in the last tier, are Gone; a page whose lock is held is Busy.
const REFUSED: &[Deed] = &[
    Deed::Works(
        2,
        DEMOTION,
        &[&[does!(LOCK), gets!(HOME, 0), does!(UNLOCK)]],
        0,
        End::Demotion(DemoteEnd::Gone),
    ),
    DEMANDED,
    Deed::Works(
        2,
        DEMOTION,
        &[&[does!(LOCK), gets!(HOME, 3), does!(UNLOCK)]],
        0,
        End::Demotion(DemoteEnd::Gone),
    ),
    Deed::Acts(&[done!(1, LOCK)]),
    Deed::Works(
        2,
        DEMOTION,
        &[&[Line::Gives(LOCK, Reply::Busy(2))]],
        0,
        End::Demotion(DemoteEnd::Busy),
    ),
    Deed::Acts(&[done!(1, UNLOCK)]),
];

fn refused() -> Row {
    Row {
        name: "no demotion",
        machine: Machine::Plain,
        deeds: REFUSED,
        pages: &[(0, Some(2), 0)],
        frames: ALONE_2,
    }
}

/// The rows of demotions.
pub fn demotions() -> [Row; 4] {
    [remapping(), copying(), two_words(), refused()]
}
