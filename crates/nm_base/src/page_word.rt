//! Page words: the 64-bit words of the page table.

ghost use Rattle.std.specs.Prelude.{◌≡◌, ◌↔◌, ◌<◌, ◌*◌, ◌==◌, IsTrue, IsSome, IfSome, Some};
ghost use Rattle.nm_base.specs.PageWord.{IsPageWord, IsPresentWord, IsNarrow, fields_of, word_of, flag};

use crate::table_word::{
    ACCESSED, DIRTY, HINT, PRESENT, SAVED, WRITABLE, frame_of, has_hint, is_accessed, is_dirty,
    is_present, is_saved, is_writable,
};

/// What a table word says of a virtual page: that it is not mapped, or the frame that it maps and the flags.
///
/// The word is 0 where the page is not mapped. Otherwise bit 0 is set, bits 1 to 5 are the flags in the order of
/// the fields below, bits 12 to 43 are the frame number, and every other bit is 0.
#[derive(Clone, Copy, Debug, PartialEq, Eq)]
pub enum PageWord {
    /// The virtual page is not mapped.
    Absent,
    /// The virtual page is mapped to a frame.
    Present {
        /// The number of the frame.
        frame: u32,
        /// The next access raises a hint fault.
        hint: bool,
        /// A walk may write through this word.
        writable: bool,
        /// A walk for a write went through this word.
        dirty: bool,
        /// A walk went through this word.
        accessed: bool,
        /// The right to write, saved while a shadow copy of the page is kept.
        saved: bool,
    },
}

/// The value of the frame number's lowest bit.
const FRAME_UNIT: u64 = 4096;

/// The first bit above the frame number.
const FRAME_END: u32 = 44;

/// Bits 6 to 11, which no page word has.
const GAP: u64 = 0xfc0;

impl PageWord {
    /// What a word says. None exactly where the word is no page word: it isn't 0, and its bit 0 is clear or a bit
    /// outside the layout is set.
    pub fn of_word(word: u64) -> Option<PageWord>
        ensures page { IsSome result ↔ IsPageWord word }
        ensures fields { IfSome result (λ p. p ≡ fields_of word) }
        // What was written is read again.
        ensures again { (p : _) → IsNarrow p → word ≡ word_of p → result ≡ Some p }
    {
        if word == 0 {
            return Some(PageWord::Absent);
        }
        if !is_mapping(word) {
            return None;
        }
        Some(PageWord::Present {
            frame: frame_of(word),
            hint: has_hint(word),
            writable: is_writable(word),
            dirty: is_dirty(word),
            accessed: is_accessed(word),
            saved: is_saved(word),
        })
    }

    /// The word that says this.
    pub fn to_word(self) -> u64
        ensures { result ≡ word_of self }
    {
        match self {
            PageWord::Absent => 0,
            PageWord::Present {
                frame,
                hint,
                writable,
                dirty,
                accessed,
                saved,
            } => {
                PRESENT
                    + flag_at(hint, HINT)
                    + flag_at(writable, WRITABLE)
                    + flag_at(dirty, DIRTY)
                    + flag_at(accessed, ACCESSED)
                    + flag_at(saved, SAVED)
                    + u64::from(frame) * FRAME_UNIT
            }
        }
    }
}

/// Whether a word maps a frame: its bit 0 is set, and no bit outside the layout is.
fn is_mapping(word: u64) -> bool
    ensures { IsTrue result ↔ IsPresentWord word }
{
    if !is_present(word) {
        return false;
    }
    if word & GAP != 0 {
        return false;
    }
    word >> FRAME_END == 0
}

/// A flag at the place of `value`.
fn flag_at(set: bool, value: u64) -> u64
    requires { value < 64 }
    ensures { result ≡ value * flag set }
{
    if set { value } else { 0 }
}
