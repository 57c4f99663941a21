//! The kinds of action.

/// The kind of an action, without its fields. Each action is one exchange on one word of the machine.
#[derive(Clone, Copy, Debug, PartialEq, Eq)]
pub enum ActionKind {
    /// A processor reads a word of a page through its translation cache.
    Load,
    /// A processor writes a word of a page through its translation cache.
    Store,
    /// A processor adds to a word of a page through its translation cache.
    Add,
    /// Read the table word of a virtual page.
    Look,
    /// A processor sets the accessed bit of a table word, and for a write the dirty bit, and caches the translation.
    Walk,
    /// A processor reads the number of raises of a virtual page.
    Peek,
    /// A processor reads the number of bumps.
    Poll,
    /// A processor writes its acknowledgement.
    Ack,
    /// Take the lock of a backing page.
    Lock,
    /// Give the lock of a backing page back.
    Unlock,
    /// Raise the number of bumps, which asks every processor for an acknowledgement.
    Bump,
    /// Read the acknowledgement of a processor.
    SeeAck,
    /// Raise the number of raises of a virtual page.
    Raise,
    /// Clear the hint bit or the accessed bit of a table word.
    Soften,
    /// Set the hint bit of a table word.
    Arm,
    /// Clear the dirty bit of a table word.
    ClearDirty,
    /// Take a word out of the table.
    Unmap,
    /// Write a word into the table, over 0.
    Map,
    /// Turn the saved right to write into the right to write.
    Grant,
    /// Read a word of the page that is being copied.
    CopyLoad,
    /// Write a word of a copy.
    CopyStore,
    /// Give a backing page a new home.
    SetHome,
    /// Give a frame a shadow, or take it away.
    SetShadow,
    /// Take the turn at a tier's free frames.
    TakeTurn,
    /// Read a word of a tier's free frames.
    Scan,
    /// Take a free frame.
    GiveFrame,
    /// Give a frame back.
    PutFrame,
    /// Give the turn at a tier's free frames back.
    ReleaseTurn,
    /// Change the mark of a backing page.
    Mark,
    /// Read the home of a backing page, or the shadow word of a frame.
    Read,
}
