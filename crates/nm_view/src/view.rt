//! What an actor knows and holds.

use std::marker::Model;

/// The acknowledgement of a processor that caches nothing for now, and what it has polled before its first Poll.
pub const OFF: u64 = u64::MAX - 1;
/// The acknowledgement of a processor that has ended.
pub const END: u64 = u64::MAX;
/// A view has at most so many open operations.
pub const MOST_OPS: usize = 10;
/// An actor makes at most so many bumps.
pub const OWN_BUMPS: u64 = 1 << 56;
/// An actor makes at most so many raises.
pub const OWN_RAISES: u64 = 1 << 59;

/// A translation that a processor has cached.
#[derive(Clone, Copy, Debug, PartialEq, Eq)]
pub struct CacheEntry {
    /// The virtual page.
    pub vpage: u32,
    /// The frame to which it leads.
    pub frame: u32,
    /// Whether stores may go through it.
    pub dirty: bool,
    /// The number of raises of the virtual page that was peeked before the walk.
    pub stamp: u64,
}

/// A number of raises that a processor has peeked.
#[derive(Clone, Copy, Debug, PartialEq, Eq)]
pub struct Peeked {
    /// The virtual page.
    pub vpage: u32,
    /// Its number of raises.
    pub stamp: u64,
    /// Whether there was no Poll since.
    pub fresh: bool,
}

/// How far an operation has come.
#[derive(Clone, Copy, Debug, PartialEq, Eq)]
pub enum Phase {
    /// The page is locked.
    Held,
    /// The dirty bit of its one table word was cleared, and the word is still in the table.
    Cleared,
    /// A table word was taken out.
    Taken,
}

/// What is known of the words of an owned frame.
#[derive(Clone, Copy, Debug, PartialEq, Eq)]
pub enum Fill {
    /// Nothing.
    Raw,
    /// So many of its first words are 0.
    Zeroed(u32),
    /// Of this page, so many of its first words were copied.
    Copied(u32, u32),
    /// All words equal those of this page.
    Equal(u32),
}

/// A frame that an actor owns.
#[derive(Clone, Copy, Debug, PartialEq, Eq)]
pub struct Owned {
    /// The frame.
    pub frame: u32,
    /// What its words are.
    pub fill: Fill,
}

/// What was scanned of a tier's free frames.
#[derive(Clone, Copy, Debug, PartialEq, Eq)]
pub struct Scanned {
    /// Words read.
    pub words: u32,
    /// Free frames found.
    pub sum: u32,
    /// The least of them.
    pub least: Option<u32>,
}

/// For how much the lists of a view have room.
#[derive(Clone, Copy, Debug, PartialEq, Eq)]
pub struct Room {
    /// Virtual pages of the machine: cached ones, and peeked ones.
    pub vpages: usize,
    /// The most virtual pages that one backing page has: those in each list of an operation.
    pub aliases: usize,
    /// Owned frames.
    pub frames: usize,
}

/// An open operation on a backing page, by the holder of its lock.
#[derive(Debug, Drop)]
pub struct OpenOp {
    /// The backing page.
    pub page: u32,
    /// The page's home word, where it is known: 0, or the frame plus 1.
    pub home: Option<u64>,
    /// The shadow word of the home, where it is known.
    pub shadow: Option<u64>,
    /// Virtual pages with the table words that were looked at.
    pub looked: Vec<(u32, u64)>,
    /// Virtual pages with the table words that were taken out and are not back.
    pub taken: Vec<(u32, u64)>,
    /// How far it has come.
    pub phase: Phase,
    /// Whether a dirty bit was cleared, and a word is not back since.
    pub cleared: bool,
    /// Whether the page was given a new home.
    pub moved: bool,
    /// Whether a Bump has to come.
    pub due: bool,
    /// The number of bumps that each processor has to acknowledge.
    pub flush: Option<u64>,
    /// The processors that were seen to have acknowledged it: bit p stands for processor p.
    pub seen: u32,
    /// Words copied.
    pub copied: u32,
    /// The word that was loaded and is not stored yet.
    pub last: Option<u64>,
    /// Virtual pages whose table words were changed, and that were not raised since.
    pub wet: Vec<u32>,
    /// Virtual pages with the numbers of raises that this operation made.
    pub raised: Vec<(u32, u64)>,
    /// Each list has room for so many virtual pages.
    pub room: usize,
}

impl Model for OpenOp {
    ghost use Rattle.std.specs.Prelude.{ℕ, ◌≤◌, vec_capacity};
    ghost use Rattle.nm_view.specs.Views.{Op};

    ghost Value = { Op };

    ghost view = { λ o. record {
      page = o.page;
      home = o.home;
      shadow = o.shadow;
      looked = o.looked.items;
      taken = o.taken.items;
      phase = o.phase;
      cleared = o.cleared;
      moved = o.moved;
      due = o.due;
      flush = o.flush;
      seen = o.seen;
      copied = o.copied;
      last = o.last;
      wet = o.wet.items;
      raised = o.raised.items;
      room = o.room;
    } };

    ghost invariant = { λ o. (o.room ≤ vec_capacity o.looked) × (o.room ≤ vec_capacity o.taken)
        × (o.room ≤ vec_capacity o.wet) × (o.room ≤ vec_capacity o.raised) };
}

/// What an actor knows and holds. What it may do next is decided by its view alone.
#[derive(Debug, Drop)]
pub struct ActorView {
    /// The actor: a processor, or the migrator or the reclaimer, which come after the processors.
    pub number: u32,
    /// The cached translations.
    pub cache: Vec<CacheEntry>,
    /// The number of bumps that was polled last; 2^64 - 2 before the first Poll.
    pub req_seen: u64,
    /// The open operations, at most ten.
    pub ops: Vec<OpenOp>,
    /// The owned frames.
    pub owned: Vec<Owned>,
    /// The tier whose turn it has.
    pub turn: Option<u32>,
    /// What was scanned in this turn.
    pub scan: Scanned,
    /// Bumps made.
    pub bumps: u64,
    /// The last acknowledgement: a number of bumps, or 2^64 - 2 for none, or 2^64 - 1 for the end.
    pub acked: u64,
    /// The numbers of raises that were peeked.
    pub peeked: Vec<Peeked>,
    /// Raises made.
    pub raises: u64,
    /// For how much the lists have room.
    pub room: Room,
    /// Closed operations, kept for their room.
    pub(crate) closed: Vec<OpenOp>,
}

impl Model for ActorView {
    ghost use Rattle.std.specs.Prelude.{◌≡◌, ℕ, ◌+◌, ◌≤◌, All, length, vec_capacity};
    ghost use Rattle.nm_view.specs.Views.{View, most_ops};

    ghost Value = { View };

    ghost view = { λ v. record {
      number = v.number;
      cache = v.cache.items;
      req_seen = v.req_seen;
      ops = v.ops.items;
      owned = v.owned.items;
      turn = v.turn;
      scan = v.scan;
      bumps = v.bumps;
      acked = v.acked;
      peeked = v.peeked.items;
      raises = v.raises;
      room = v.room;
    } };

    ghost invariant = { λ v. (v.room.vpages ≤ vec_capacity v.cache) × (v.room.vpages ≤ vec_capacity v.peeked)
        × (v.room.frames ≤ vec_capacity v.owned) × (most_ops ≤ vec_capacity v.ops) × (most_ops ≤ vec_capacity v.closed)
        × (length v.ops.items + length v.closed.items ≡ most_ops)
        × All (λ o. o.room ≡ v.room.aliases) v.closed.items };
}
