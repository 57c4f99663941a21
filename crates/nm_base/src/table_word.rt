//! The bits of table words: what each says, and how a walk and a grant change them.

ghost use Rattle.std.specs.Prelude.{◌≡◌, ◌==◌, ◌<◌, ◌≤◌, ◌^◌};
ghost use Rattle.std.specs.Int.{bit_at};
ghost use Rattle.nm_base.specs.PageWord.{is_present, has_hint, is_writable, is_dirty, is_accessed, is_saved, frame_of, all_but, walk_mask, walked_word, granted_word};

/// The word maps a frame.
pub const PRESENT: u64 = 1;
/// The next access raises a hint fault.
pub const HINT: u64 = 2;
/// A walk may write through the word.
pub const WRITABLE: u64 = 4;
/// A walk for a write went through the word.
pub const DIRTY: u64 = 8;
/// A walk went through the word.
pub const ACCESSED: u64 = 16;
/// The right to write, saved while a shadow copy of the page is kept.
pub const SAVED: u64 = 32;
/// What a grant turns: the right to write and the saved one.
pub const GRANT: u64 = 36;

/// The distance of the frame number from bit 0.
const FRAME_SHIFT: u32 = 12;

/// Whether bit `bit` of a word is set.
pub fn has_bit(word: u64, bit: u32) -> bool
    requires { bit < 64 }
    ensures { result ≡ (bit_at word bit == 1) }
{
    (word >> bit) & 1 == 1
}

/// Whether a table word maps a frame.
pub fn is_present(word: u64) -> bool
    ensures { result ≡ is_present word }
{
    has_bit(word, 0)
}

/// Whether the next access through a table word raises a hint fault.
pub fn has_hint(word: u64) -> bool
    ensures { result ≡ has_hint word }
{
    has_bit(word, 1)
}

/// Whether a walk may write through a table word.
pub fn is_writable(word: u64) -> bool
    ensures { result ≡ is_writable word }
{
    has_bit(word, 2)
}

/// Whether a walk for a write went through a table word.
pub fn is_dirty(word: u64) -> bool
    ensures { result ≡ is_dirty word }
{
    has_bit(word, 3)
}

/// Whether a walk went through a table word.
pub fn is_accessed(word: u64) -> bool
    ensures { result ≡ is_accessed word }
{
    has_bit(word, 4)
}

/// Whether a table word has the saved right to write.
pub fn is_saved(word: u64) -> bool
    ensures { result ≡ is_saved word }
{
    has_bit(word, 5)
}

/// The number of the frame that a table word maps.
pub fn frame_of(word: u64) -> u32
    ensures { result ≡ frame_of word }
{
    ((word >> FRAME_SHIFT) % (1 << 32)) as u32
}

/// Every bit of a word but those of a mask.
pub fn all_but(mask: u64) -> u64
    ensures { result ≡ all_but mask }
{
    u64::MAX - mask
}

/// What a walk sets in a table word.
pub fn walk_mask(write: bool) -> u64
    ensures value { result ≡ walk_mask write }
    ensures bound { result < 64 }
{
    if write { ACCESSED + DIRTY } else { ACCESSED }
}

/// A table word after a walk went through it.
pub fn walked_word(word: u64, write: bool) -> u64
    ensures { result ≡ walked_word word write }
{
    word | walk_mask(write)
}

/// A table word whose saved right to write is made the right to write.
pub fn granted_word(word: u64) -> u64
    ensures { result ≡ granted_word word }
{
    word ^ GRANT
}
