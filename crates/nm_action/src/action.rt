//! What an actor can ask of the machine, and what it is answered.

ghost use Rattle.std.specs.Prelude.{◌≡◌};
ghost use Rattle.nm_action.specs.Kinds.{kind_of};

use crate::kind::ActionKind;

/// What a processor acknowledges.
#[derive(Clone, Copy, Debug, PartialEq, Eq)]
pub enum AckTo {
    /// The number of bumps that it polled last.
    Seen,
    /// That it caches nothing for now.
    Off,
    /// That it has ended, and caches nothing.
    End,
}

/// A word that an operation can read of its page.
#[derive(Clone, Copy, Debug, PartialEq, Eq)]
pub enum Cell {
    /// The home of this backing page.
    Home(u32),
    /// The shadow word of this frame.
    Shadow(u32),
}

/// A bit of a table word that anybody may clear.
#[derive(Clone, Copy, Debug, PartialEq, Eq)]
pub enum Bit {
    /// The next access raises a hint fault.
    Hint,
    /// A walk went through the word.
    Accessed,
}

/// One exchange on one word of the machine. Virtual pages, backing pages, frames, tiers and processors go by their
/// numbers.
#[derive(Clone, Copy, Debug, PartialEq, Eq)]
pub enum Action {
    /// Load a word of the frame that the own cache has for a virtual page.
    Load {
        vpage: u32,
        word: u32,
    },
    /// Swap `value` into a word of the frame that the own cache has for a virtual page.
    Store {
        vpage: u32,
        word: u32,
        value: u64,
    },
    /// Add `value`, modulo 2^64, to a word of the frame that the own cache has for a virtual page.
    Add {
        vpage: u32,
        word: u32,
        value: u64,
    },
    /// Load the table word of a virtual page.
    Look {
        vpage: u32,
    },
    /// Where the table word is `expect`, set its accessed bit, and its dirty bit where `write`, and cache it.
    Walk {
        vpage: u32,
        expect: u64,
        write: bool,
    },
    /// Load the number of raises of a virtual page.
    Peek {
        vpage: u32,
    },
    /// Load the number of bumps.
    Poll,
    /// Store the own acknowledgement.
    Ack {
        to: AckTo,
    },
    /// Where the lock of a backing page is free, take it.
    Lock {
        page: u32,
    },
    /// Free the lock of a backing page.
    Unlock {
        page: u32,
    },
    /// Add 1 to the number of bumps.
    Bump,
    /// Load the acknowledgement of a processor.
    SeeAck {
        cpu: u32,
    },
    /// Add 1 to the number of raises of a virtual page.
    Raise {
        vpage: u32,
    },
    /// Clear a bit of a table word.
    Soften {
        vpage: u32,
        bit: Bit,
    },
    /// Set the hint bit of a table word.
    Arm {
        vpage: u32,
    },
    /// Clear the dirty bit of a table word.
    ClearDirty {
        vpage: u32,
    },
    /// Swap a table word with 0.
    Unmap {
        vpage: u32,
    },
    /// Store a word over a table word that is 0.
    Map {
        vpage: u32,
        word: u64,
    },
    /// Make a table word writable, and clear its saved right to write.
    Grant {
        vpage: u32,
    },
    /// Load a word of the home of a backing page.
    CopyLoad {
        page: u32,
        index: u32,
    },
    /// Store a word of a frame: 0, or a word of a backing page that is being copied.
    CopyStore {
        page: Option<u32>,
        frame: u32,
        index: u32,
        value: u64,
    },
    /// Store the home of a backing page.
    SetHome {
        page: u32,
        frame: u32,
    },
    /// Store the shadow word of a frame: the shadow of a backing page, or none.
    SetShadow {
        page: u32,
        master: u32,
        shadow: Option<u32>,
    },
    /// Where the turn at a tier's free frames is free, take it.
    TakeTurn {
        tier: u32,
    },
    /// Load a word of a tier's free frames.
    Scan {
        tier: u32,
        index: u32,
    },
    /// Clear the bit of a free frame.
    GiveFrame {
        frame: u32,
    },
    /// Set the bit of a frame.
    PutFrame {
        frame: u32,
    },
    /// Free the turn at a tier's free frames.
    ReleaseTurn {
        tier: u32,
    },
    /// Where the mark of a backing page is `from`, make it `to`: 0 none, 1 candidate, 2 pending.
    Mark {
        page: u32,
        from: u64,
        to: u64,
    },
    /// Load the home of a backing page, or the shadow word of a frame.
    Read {
        page: u32,
        cell: Cell,
    },
}

impl Action {
    /// Its kind.
    pub fn kind(&self) -> ActionKind
        ensures { result ≡ kind_of self.now }
    {
        match self {
            Action::Load { .. } => ActionKind::Load,
            Action::Store { .. } => ActionKind::Store,
            Action::Add { .. } => ActionKind::Add,
            Action::Look { .. } => ActionKind::Look,
            Action::Walk { .. } => ActionKind::Walk,
            Action::Peek { .. } => ActionKind::Peek,
            Action::Poll => ActionKind::Poll,
            Action::Ack { .. } => ActionKind::Ack,
            Action::Lock { .. } => ActionKind::Lock,
            Action::Unlock { .. } => ActionKind::Unlock,
            Action::Bump => ActionKind::Bump,
            Action::SeeAck { .. } => ActionKind::SeeAck,
            Action::Raise { .. } => ActionKind::Raise,
            Action::Soften { .. } => ActionKind::Soften,
            Action::Arm { .. } => ActionKind::Arm,
            Action::ClearDirty { .. } => ActionKind::ClearDirty,
            Action::Unmap { .. } => ActionKind::Unmap,
            Action::Map { .. } => ActionKind::Map,
            Action::Grant { .. } => ActionKind::Grant,
            Action::CopyLoad { .. } => ActionKind::CopyLoad,
            Action::CopyStore { .. } => ActionKind::CopyStore,
            Action::SetHome { .. } => ActionKind::SetHome,
            Action::SetShadow { .. } => ActionKind::SetShadow,
            Action::TakeTurn { .. } => ActionKind::TakeTurn,
            Action::Scan { .. } => ActionKind::Scan,
            Action::GiveFrame { .. } => ActionKind::GiveFrame,
            Action::PutFrame { .. } => ActionKind::PutFrame,
            Action::ReleaseTurn { .. } => ActionKind::ReleaseTurn,
            Action::Mark { .. } => ActionKind::Mark,
            Action::Read { .. } => ActionKind::Read,
        }
    }
}

/// What an action is answered.
#[derive(Clone, Copy, Debug, PartialEq, Eq)]
pub enum Reply {
    /// It was done.
    Done,
    /// The word read, or the word before the exchange.
    Word(u64),
    /// The lock or turn word was this, and not 0; nothing was changed.
    Busy(u64),
    /// The page word or mark word was this, and not the expected one; nothing was changed.
    Lost(u64),
}

/// One step of a run.
#[derive(Clone, Copy, Debug, PartialEq, Eq)]
pub struct Event {
    /// The number of the actor.
    pub actor: u32,
    /// What it asked.
    pub action: Action,
    /// What it was answered.
    pub reply: Reply,
}
