//! A long list of events, worked by hand, in which every kind of action occurs: one page is given a frame, moved with a copy
//! that a store spoils, moved with one that nothing spoils, stored to again, and moved back under its lock. Actor 0 is the
//! processor, actor 1 the migrator, actor 2 the reclaimer. After each stretch stand events of which none is a step there.

use crate::driver::Stretch;
use nm_action::{AckTo, Action, Bit, Cell, Event, Reply};

// The action is done.
macro_rules! done {
    ($actor:expr, $action:expr) => {
        Event { actor: $actor, action: $action, reply: Reply::Done }
    };
}

// The action gives this word.
macro_rules! word {
    ($actor:expr, $action:expr, $word:expr) => {
        Event { actor: $actor, action: $action, reply: Reply::Word($word) }
    };
}

// The lock or the turn is held, with this word.
macro_rules! busy {
    ($actor:expr, $action:expr, $word:expr) => {
        Event { actor: $actor, action: $action, reply: Reply::Busy($word) }
    };
}

// Another word than the expected one is found.
macro_rules! lost {
    ($actor:expr, $action:expr, $word:expr) => {
        Event { actor: $actor, action: $action, reply: Reply::Lost($word) }
    };
}

macro_rules! look {
    ($vpage:expr) => {
        Action::Look { vpage: $vpage }
    };
}

macro_rules! peek {
    ($vpage:expr) => {
        Action::Peek { vpage: $vpage }
    };
}

macro_rules! walk {
    ($vpage:expr, $expect:expr, $write:expr) => {
        Action::Walk { vpage: $vpage, expect: $expect, write: $write }
    };
}

// Word 3 of a virtual page.
macro_rules! load {
    ($vpage:expr) => {
        Action::Load { vpage: $vpage, word: 3 }
    };
}

macro_rules! store {
    ($vpage:expr, $value:expr) => {
        Action::Store { vpage: $vpage, word: 3, value: $value }
    };
}

macro_rules! add {
    ($vpage:expr, $value:expr) => {
        Action::Add { vpage: $vpage, word: 3, value: $value }
    };
}

macro_rules! map {
    ($vpage:expr, $word:expr) => {
        Action::Map { vpage: $vpage, word: $word }
    };
}

macro_rules! unmap {
    ($vpage:expr) => {
        Action::Unmap { vpage: $vpage }
    };
}

macro_rules! raise {
    ($vpage:expr) => {
        Action::Raise { vpage: $vpage }
    };
}

macro_rules! mark {
    ($from:expr, $to:expr) => {
        Action::Mark { page: 0, from: $from, to: $to }
    };
}

macro_rules! take {
    ($tier:expr) => {
        Action::TakeTurn { tier: $tier }
    };
}

macro_rules! scan {
    ($tier:expr) => {
        Action::Scan { tier: $tier, index: 0 }
    };
}

macro_rules! release {
    ($tier:expr) => {
        Action::ReleaseTurn { tier: $tier }
    };
}

macro_rules! give {
    ($frame:expr) => {
        Action::GiveFrame { frame: $frame }
    };
}

macro_rules! put {
    ($frame:expr) => {
        Action::PutFrame { frame: $frame }
    };
}

macro_rules! set_home {
    ($frame:expr) => {
        Action::SetHome { page: 0, frame: $frame }
    };
}

// The shadow of page 0, whose master is frame 0.
macro_rules! set_shadow {
    ($shadow:expr) => {
        Action::SetShadow { page: 0, master: 0, shadow: $shadow }
    };
}

macro_rules! shadow_of {
    ($frame:expr) => {
        Action::Read { page: 0, cell: Cell::Shadow($frame) }
    };
}

macro_rules! copy_load {
    ($index:expr) => {
        Action::CopyLoad { page: 0, index: $index }
    };
}

// The next word of a copy of page 0.
macro_rules! copy_store {
    ($frame:expr, $index:expr, $value:expr) => {
        Action::CopyStore { page: Some(0), frame: $frame, index: $index, value: $value }
    };
}

// The next 0 of frame 2, for a page that has none.
macro_rules! zero {
    ($index:expr) => {
        Action::CopyStore { page: None, frame: 2, index: $index, value: 0 }
    };
}

const LOCK: Action = Action::Lock { page: 0 };

const UNLOCK: Action = Action::Unlock { page: 0 };

const POLL: Action = Action::Poll;

const BUMP: Action = Action::Bump;

const SEEN: Action = Action::Ack { to: AckTo::Seen };

const END: Action = Action::Ack { to: AckTo::End };

const SEE: Action = Action::SeeAck { cpu: 0 };

const HOME: Action = Action::Read {
    page: 0,
    cell: Cell::Home(0),
};

const CLEAR: Action = Action::ClearDirty { vpage: 0 };

const ARM: Action = Action::Arm { vpage: 0 };

const GRANT: Action = Action::Grant { vpage: 0 };

const CALM: Action = Action::Soften {
    vpage: 0,
    bit: Bit::Hint,
};

const AGE: Action = Action::Soften {
    vpage: 0,
    bit: Bit::Accessed,
};

// A table word: 1 present, 2 hint, 4 writable, 8 dirty, 16 accessed, 32 saved, and 4096 times the frame.

/// At first: an actor that doesn't exist, numbers out of range, what only a processor does, other replies.
fn opening() -> Stretch {
    Stretch {
        events: &[],
        refused: OPENING,
    }
}

const OPENING: &[Event] = &[
    word!(3, BUMP, 0),
    word!(4294967295, BUMP, 0),
    done!(0, Action::Lock { page: 1 }),
    word!(0, look!(2), 0),
    word!(1, POLL, 0),
    word!(0, POLL, 1),
    done!(0, POLL),
    busy!(0, LOCK, 0),
    done!(0, SEEN),
];

/// The processor gives the page frame 2, with words 0, and maps virtual page 0 to it. Then no access has a translation yet,
/// and no walk goes through a word with its hint set.
fn demanded() -> Stretch {
    Stretch {
        events: DEMAND,
        refused: NOT_WALKED,
    }
}

const DEMAND: &[Event] = &[
    word!(0, POLL, 0),
    done!(0, SEEN),
    done!(0, LOCK),
    word!(0, look!(0), 0),
    word!(0, look!(1), 0),
    word!(0, HOME, 0),
    done!(0, take!(1)),
    word!(0, scan!(1), 1023),
    word!(0, give!(2), 1023),
    done!(0, release!(1)),
    done!(0, zero!(0)),
    done!(0, zero!(1)),
    done!(0, zero!(2)),
    done!(0, zero!(3)),
    done!(0, set_home!(2)),
    done!(0, map!(0, 0x2007)),
    done!(0, UNLOCK),
    done!(0, mark!(0, 1)),
    word!(0, peek!(0), 0),
];

const NOT_WALKED: &[Event] = &[
    word!(0, load!(0), 0),
    done!(0, walk!(0, 0x2007, false)),
    word!(0, look!(0), 0x2005),
    done!(0, mark!(2, 0)),
];

/// The hint is cleared, and the processor walks to read: stores and adds have no dirty translation yet.
fn walked() -> Stretch {
    Stretch {
        events: READ,
        refused: NOT_DIRTY,
    }
}

const READ: &[Event] = &[
    word!(0, look!(0), 0x2007),
    word!(0, CALM, 0x2007),
    done!(0, walk!(0, 0x2005, false)),
    word!(0, load!(0), 0),
];

const NOT_DIRTY: &[Event] = &[
    word!(0, store!(0, 7), 0),
    word!(0, add!(0, 7), 0),
    done!(0, walk!(0, 0x2005, true)),
];

/// It walks to write. A load gives what was stored, and nothing else.
fn stored() -> Stretch {
    Stretch {
        events: WRITTEN,
        refused: OTHER_VALUES,
    }
}

const WRITTEN: &[Event] = &[
    done!(0, walk!(0, 0x2015, true)),
    word!(0, store!(0, 7), 0),
    word!(0, add!(0, 2), 7),
    word!(0, load!(0), 9),
];

const OTHER_VALUES: &[Event] = &[word!(0, load!(0), 0), word!(0, add!(0, 1), 7)];

/// The migrator takes frame 0, clears the dirty bit, and begins a flush. The processor still stores through its old
/// translation, so nothing is copied and nothing taken before it acknowledges.
fn cleared() -> Stretch {
    Stretch {
        events: CLEARED,
        refused: EARLY,
    }
}

const CLEARED: &[Event] = &[
    done!(1, mark!(1, 2)),
    done!(1, LOCK),
    busy!(2, LOCK, 2),
    word!(1, look!(0), 0x201d),
    word!(1, look!(1), 0),
    word!(1, HOME, 3),
    word!(1, shadow_of!(2), 0),
    done!(1, take!(0)),
    busy!(2, take!(0), 2),
    word!(1, scan!(0), 3),
    word!(1, give!(0), 3),
    done!(1, release!(0)),
    word!(1, CLEAR, 0x201d),
    word!(1, raise!(0), 0),
    word!(1, BUMP, 0),
    word!(1, SEE, 0),
    word!(0, store!(0, 8), 9),
];

const EARLY: &[Event] = &[
    word!(1, copy_load!(0), 0),
    word!(1, unmap!(0), 0x2015),
    done!(1, UNLOCK),
    done!(1, set_home!(0)),
];

/// The processor acknowledges: its old translation is gone.
fn acknowledged() -> Stretch {
    Stretch {
        events: ACKNOWLEDGED,
        refused: STALE,
    }
}

const ACKNOWLEDGED: &[Event] = &[
    word!(0, POLL, 1),
    word!(0, peek!(0), 1),
    done!(0, SEEN),
    word!(1, SEE, 1),
];

const STALE: &[Event] = &[
    word!(0, load!(0), 8),
    word!(0, store!(0, 1), 8),
    word!(0, add!(0, 1), 8),
];

/// The page is copied, and meanwhile the processor walks to write, and stores. The word that is taken is dirty: the copy
/// is no new home, and only that very word goes back.
fn spoilt() -> Stretch {
    Stretch {
        events: SPOILT,
        refused: BLIND,
    }
}

const SPOILT: &[Event] = &[
    word!(1, copy_load!(0), 0),
    done!(1, copy_store!(0, 0, 0)),
    word!(1, copy_load!(1), 0),
    done!(1, copy_store!(0, 1, 0)),
    word!(1, copy_load!(2), 0),
    done!(1, copy_store!(0, 2, 0)),
    word!(1, copy_load!(3), 8),
    done!(1, copy_store!(0, 3, 8)),
    done!(0, walk!(0, 0x2015, true)),
    word!(0, store!(0, 5), 8),
    word!(1, unmap!(0), 0x201d),
    word!(1, raise!(0), 1),
    word!(1, BUMP, 1),
    word!(0, POLL, 2),
    word!(0, peek!(0), 2),
    done!(0, SEEN),
    word!(1, SEE, 2),
];

const BLIND: &[Event] = &[
    done!(1, set_home!(0)),
    done!(1, map!(0, 0x2015)),
    done!(1, map!(0, 0x2019)),
    done!(1, map!(0, 0x15)),
    done!(1, UNLOCK),
];

/// The word goes back, and the migrator tries once more. Before the second flush has ended the page has no new home.
fn tried_again() -> Stretch {
    Stretch {
        events: AGAIN,
        refused: EARLY_HOME,
    }
}

const AGAIN: &[Event] = &[
    done!(1, map!(0, 0x201d)),
    done!(1, UNLOCK),
    done!(1, LOCK),
    word!(1, look!(0), 0x201d),
    word!(1, look!(1), 0),
    word!(1, HOME, 3),
    word!(1, shadow_of!(2), 0),
    word!(1, CLEAR, 0x201d),
    word!(1, raise!(0), 2),
    word!(1, BUMP, 2),
    word!(0, POLL, 3),
    done!(0, SEEN),
    word!(1, SEE, 3),
    word!(1, copy_load!(0), 0),
    done!(1, copy_store!(0, 0, 0)),
    word!(1, copy_load!(1), 0),
    done!(1, copy_store!(0, 1, 0)),
    word!(1, copy_load!(2), 0),
    done!(1, copy_store!(0, 2, 0)),
    word!(1, copy_load!(3), 5),
    done!(1, copy_store!(0, 3, 5)),
    word!(1, unmap!(0), 0x2015),
    word!(1, raise!(0), 3),
    word!(1, BUMP, 3),
    word!(1, SEE, 3),
];

const EARLY_HOME: &[Event] = &[done!(1, set_home!(0)), done!(1, map!(0, 0x2015))];

/// The second flush has ended, and the word that was taken is clean: it doesn't go back.
fn flushed() -> Stretch {
    Stretch {
        events: FLUSHED,
        refused: NO_ABORT,
    }
}

const FLUSHED: &[Event] = &[word!(0, POLL, 4), done!(0, SEEN), word!(1, SEE, 4)];

const NO_ABORT: &[Event] = &[
    done!(1, map!(0, 0x2015)),
    done!(1, UNLOCK),
    done!(1, set_shadow!(Some(2))),
];

/// Frame 0 is the home, and frame 2 its shadow: no writable word is mapped.
fn committed() -> Stretch {
    Stretch {
        events: COMMITTED,
        refused: WRITABLE,
    }
}

const COMMITTED: &[Event] = &[
    done!(1, set_home!(0)),
    done!(1, set_shadow!(Some(2))),
    done!(1, take!(1)),
];

const WRITABLE: &[Event] = &[
    done!(1, map!(0, 0x15)),
    done!(1, map!(0, 0x2011)),
    word!(1, put!(2), 1022),
    done!(1, set_home!(0)),
    done!(1, UNLOCK),
];

/// The page is mapped, with the saved right to write. The shadow is no free frame.
fn mapped() -> Stretch {
    Stretch {
        events: MAPPED,
        refused: SHADOW_KEPT,
    }
}

const MAPPED: &[Event] = &[
    done!(1, map!(0, 0x31)),
    done!(1, mark!(2, 0)),
    done!(1, UNLOCK),
];

const SHADOW_KEPT: &[Event] = &[word!(1, put!(2), 1022), word!(1, give!(2), 1022)];

/// The processor maps the second virtual page, and reads through it. Then it wants to write, and sees that there is a shadow:
/// the right to write is not granted, and the second virtual page has none.
fn shared() -> Stretch {
    Stretch {
        events: SHARED,
        refused: NOT_GRANTED,
    }
}

const SHARED: &[Event] = &[
    done!(1, release!(1)),
    done!(0, LOCK),
    word!(0, look!(1), 0),
    word!(0, HOME, 1),
    done!(0, map!(1, 0x1)),
    done!(0, UNLOCK),
    word!(0, peek!(1), 0),
    done!(0, walk!(1, 0x1, false)),
    word!(0, load!(1), 5),
    done!(0, LOCK),
    word!(0, look!(0), 0x31),
    word!(0, HOME, 1),
    word!(0, shadow_of!(0), 0x1_0000_0003),
];

const NOT_GRANTED: &[Event] = &[
    word!(0, GRANT, 0x31),
    word!(0, store!(1, 1), 5),
    done!(0, walk!(1, 0x11, true)),
    done!(0, set_shadow!(Some(2))),
];

/// The shadow is taken away, its frame put back, and the right to write granted. The processor stores.
fn granted() -> Stretch {
    Stretch {
        events: GRANTED,
        refused: OLD_VALUE,
    }
}

const GRANTED: &[Event] = &[
    done!(0, set_shadow!(None)),
    word!(0, GRANT, 0x31),
    done!(0, UNLOCK),
    done!(0, take!(1)),
    word!(0, put!(2), 1022),
    done!(0, release!(1)),
    word!(0, peek!(0), 4),
    done!(0, walk!(0, 0x15, true)),
    word!(0, store!(0, 6), 5),
    word!(0, load!(1), 6),
];

const OLD_VALUE: &[Event] = &[word!(0, load!(1), 5), word!(0, put!(2), 1023)];

/// The reclaimer sets the hint, and clears the accessed bit. A walk that expects another word is lost, as is a step of a mark.
fn armed() -> Stretch {
    Stretch {
        events: ARMED,
        refused: HINTED,
    }
}

const ARMED: &[Event] = &[
    done!(2, LOCK),
    busy!(1, LOCK, 3),
    word!(2, look!(0), 0x1d),
    word!(2, ARM, 0x1d),
    word!(2, AGE, 0x1f),
    done!(2, UNLOCK),
    word!(2, look!(0), 0xf),
    lost!(0, walk!(0, 0x1d, false), 0xf),
    done!(0, mark!(0, 1)),
    lost!(0, mark!(0, 1), 1),
    done!(0, mark!(1, 0)),
];

const HINTED: &[Event] = &[
    done!(0, walk!(0, 0xf, false)),
    done!(0, walk!(0, 0x1d, false)),
    lost!(0, walk!(0, 0x1d, false), 0x1d),
    word!(2, ARM, 0xf),
];

/// The migrator takes frame 2 and both words of the page. Before the flush has ended it copies nothing, and maps nothing.
fn taken() -> Stretch {
    Stretch {
        events: TAKEN,
        refused: NOT_FLUSHED,
    }
}

const TAKEN: &[Event] = &[
    done!(1, take!(1)),
    word!(1, scan!(1), 1023),
    word!(1, give!(2), 1023),
    done!(1, release!(1)),
    done!(1, LOCK),
    word!(1, look!(0), 0xf),
    word!(1, look!(1), 0x11),
    word!(1, HOME, 1),
    word!(1, shadow_of!(0), 0),
    word!(1, unmap!(0), 0xf),
    word!(1, unmap!(1), 0x11),
    word!(1, raise!(0), 4),
    word!(1, raise!(1), 0),
    word!(1, BUMP, 4),
    word!(1, SEE, 4),
];

const NOT_FLUSHED: &[Event] = &[
    word!(1, copy_load!(0), 0),
    done!(1, map!(0, 0xf)),
    done!(1, set_home!(2)),
    done!(1, UNLOCK),
];

/// The page is copied and moved, both words are mapped to the new home, frame 0 is put back, and the processor ends.
fn moved() -> Stretch {
    Stretch {
        events: MOVED,
        refused: ENDED,
    }
}

const MOVED: &[Event] = &[
    word!(0, POLL, 5),
    done!(0, SEEN),
    word!(1, SEE, 5),
    word!(1, copy_load!(0), 0),
    done!(1, copy_store!(2, 0, 0)),
    word!(1, copy_load!(1), 0),
    done!(1, copy_store!(2, 1, 0)),
    word!(1, copy_load!(2), 0),
    done!(1, copy_store!(2, 2, 0)),
    word!(1, copy_load!(3), 6),
    done!(1, copy_store!(2, 3, 6)),
    done!(1, set_home!(2)),
    done!(1, map!(0, 0x200d)),
    done!(1, map!(1, 0x2011)),
    done!(1, UNLOCK),
    word!(0, peek!(1), 1),
    done!(0, walk!(1, 0x2011, false)),
    word!(0, load!(1), 6),
    done!(1, take!(0)),
    word!(1, put!(0), 2),
    done!(1, release!(0)),
    done!(0, END),
];

const ENDED: &[Event] = &[
    word!(0, load!(1), 6),
    done!(0, walk!(1, 0x2011, false)),
    word!(1, put!(0), 3),
    word!(1, SEE, 5),
];

/// The whole list, stretch by stretch.
pub fn stretches() -> [Stretch; 16] {
    [
        opening(),
        demanded(),
        walked(),
        stored(),
        cleared(),
        acknowledged(),
        spoilt(),
        tried_again(),
        flushed(),
        committed(),
        mapped(),
        shared(),
        granted(),
        armed(),
        taken(),
        moved(),
    ]
}
