//! The hotness of a page, by a word of the page table.

ghost use Rattle.std.specs.Prelude.{◌↔◌, IsTrue};
ghost use Rattle.nm_policy.specs.Hotness.{IsHot};

use nm_base::table_word::{is_accessed, is_present};

/// Whether a page word says that its page is in use: the page is mapped, and was accessed.
pub fn hot(word: u64) -> bool
    ensures { IsTrue result ↔ IsHot word }
{
    is_present(word) && is_accessed(word)
}
