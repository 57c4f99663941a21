//! Accesses: what processors do to the words of virtual pages.

ghost use Rattle.std.specs.Prelude.{◌≡◌, IfOk};
ghost use Rattle.nm_flat.specs.Memory.{own_part_of};

use std::alloc::{AllocError, Global};

/// What an access does to its word, and what it told of it.
#[derive(Clone, Copy, Debug, PartialEq, Eq)]
pub enum AccessKind {
    /// A load, with the value that it gave.
    Load(u64),
    /// A store of this value. It tells nothing of the word.
    Store(u64),
    /// An add, modulo 2^64.
    Add {
        /// What the word was before.
        gave: u64,
        /// The number that was added.
        plus: u64,
    },
}

/// One access of a processor to a word of a virtual page.
#[derive(Clone, Copy, Debug, PartialEq, Eq)]
pub struct Access {
    /// The number of the processor that made it.
    pub cpu: u32,
    /// The number of the virtual page.
    pub vpage: u32,
    /// The index of the word in the page, below the words of a page.
    pub word: u32,
    /// What it did, and what it told.
    pub kind: AccessKind,
}

/// The accesses of one processor, in order. `AllocError` comes where there is no memory for them.
pub fn own_part(alloc: Global, list: &[Access], cpu: u32) -> Result<Vec<Access>, AllocError>
    ensures { IfOk result (λ v. v.items ≡ own_part_of cpu list.now) }
{
    list.iter()
        .filter(|access| access.cpu == cpu)
        .copied()
        .collect(alloc)
}
