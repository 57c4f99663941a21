//! The actions of rows, at page 0, with what they hear.

use nm_action::{AckTo, Action, Bit, Cell};

// An event: the action is done.
macro_rules! done {
    ($actor:expr, $action:expr) => {
        Event { actor: $actor, action: $action, reply: Reply::Done }
    };
}

// An event: the action gives this word.
macro_rules! word {
    ($actor:expr, $action:expr, $word:expr) => {
        Event { actor: $actor, action: $action, reply: Reply::Word($word) }
    };
}

// The part's action is done.
macro_rules! does {
    ($action:expr) => {
        Line::Gives($action, Reply::Done)
    };
}

// The part's action gives this word.
macro_rules! gets {
    ($action:expr, $word:expr) => {
        Line::Gives($action, Reply::Word($word))
    };
}

macro_rules! look {
    ($vpage:expr) => {
        Action::Look { vpage: $vpage }
    };
}

macro_rules! walk {
    ($expect:expr, $write:expr) => {
        Action::Walk { vpage: 0, expect: $expect, write: $write }
    };
}

// Word 3 of virtual page 0.
macro_rules! store {
    ($value:expr) => {
        Action::Store { vpage: 0, word: 3, value: $value }
    };
}

macro_rules! map {
    ($vpage:expr, $word:expr) => {
        Action::Map { vpage: $vpage, word: $word }
    };
}

macro_rules! unmap {
    ($vpage:expr) => {
        Action::Unmap { vpage: $vpage }
    };
}

macro_rules! raise {
    ($vpage:expr) => {
        Action::Raise { vpage: $vpage }
    };
}

macro_rules! arm {
    ($vpage:expr) => {
        Action::Arm { vpage: $vpage }
    };
}

macro_rules! take {
    ($tier:expr) => {
        Action::TakeTurn { tier: $tier }
    };
}

macro_rules! scan {
    ($tier:expr) => {
        Action::Scan { tier: $tier, index: 0 }
    };
}

macro_rules! release {
    ($tier:expr) => {
        Action::ReleaseTurn { tier: $tier }
    };
}

macro_rules! give {
    ($frame:expr) => {
        Action::GiveFrame { frame: $frame }
    };
}

macro_rules! put {
    ($frame:expr) => {
        Action::PutFrame { frame: $frame }
    };
}

macro_rules! set_home {
    ($frame:expr) => {
        Action::SetHome { page: 0, frame: $frame }
    };
}

macro_rules! set_shadow {
    ($master:expr, $shadow:expr) => {
        Action::SetShadow { page: 0, master: $master, shadow: $shadow }
    };
}

macro_rules! shadow_of {
    ($frame:expr) => {
        Action::Read { page: 0, cell: Cell::Shadow($frame) }
    };
}

macro_rules! copy_load {
    ($index:expr) => {
        Action::CopyLoad { page: 0, index: $index }
    };
}

macro_rules! copy_store {
    ($frame:expr, $index:expr, $value:expr) => {
        Action::CopyStore { page: Some(0), frame: $frame, index: $index, value: $value }
    };
}

macro_rules! zero {
    ($frame:expr, $index:expr) => {
        Action::CopyStore { page: None, frame: $frame, index: $index, value: 0 }
    };
}

pub const LOCK: Action = Action::Lock { page: 0 };

pub const UNLOCK: Action = Action::Unlock { page: 0 };

pub const HOME: Action = Action::Read {
    page: 0,
    cell: Cell::Home(0),
};

pub const CLEAR: Action = Action::ClearDirty { vpage: 0 };

pub const GRANT: Action = Action::Grant { vpage: 0 };

pub const CALM: Action = Action::Soften {
    vpage: 0,
    bit: Bit::Hint,
};

pub const BUMP: Action = Action::Bump;

pub const SEE: Action = Action::SeeAck { cpu: 0 };

pub const PEEK: Action = Action::Peek { vpage: 0 };

pub const LOAD: Action = Action::Load { vpage: 0, word: 3 };

pub const POLL: Action = Action::Poll;

pub const SEEN: Action = Action::Ack { to: AckTo::Seen };

pub const END: Action = Action::Ack { to: AckTo::End };

pub const CANDIDATE: Action = Action::Mark {
    page: 0,
    from: 0,
    to: 1,
};

pub const PENDING: Action = Action::Mark {
    page: 0,
    from: 1,
    to: 2,
};

pub const UNMARK: Action = Action::Mark {
    page: 0,
    from: 2,
    to: 0,
};

/// The acknowledgement of a processor that never made one, and of one that has ended.
pub const OFF: u64 = 0xffff_ffff_ffff_fffe;

pub const ENDED: u64 = 0xffff_ffff_ffff_ffff;

pub(crate) use arm;
pub(crate) use copy_load;
pub(crate) use copy_store;
pub(crate) use does;
pub(crate) use done;
pub(crate) use gets;
pub(crate) use give;
pub(crate) use look;
pub(crate) use map;
pub(crate) use put;
pub(crate) use raise;
pub(crate) use release;
pub(crate) use scan;
pub(crate) use set_home;
pub(crate) use set_shadow;
pub(crate) use shadow_of;
pub(crate) use store;
pub(crate) use take;
pub(crate) use unmap;
pub(crate) use walk;
pub(crate) use word;
pub(crate) use zero;
