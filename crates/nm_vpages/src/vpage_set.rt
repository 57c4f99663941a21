//! Sets of virtual pages.

ghost use Rattle.std.specs.Prelude.{◌≡◌, ◌+◌, ◌<◌, ◌≤◌, ◌↔◌, [], ◌∷◌, ◌++◌, length, IsTrue, IfSome, IfNone, Contains};
ghost use Rattle.nm_vpages.specs.Bits.{IsNextSet, HasNoneSet};
ghost use Rattle.nm_vpages.specs.VPages.{vpages_of, at_or_after, most_vpages, AreBelow};

use nm_base::Geometry;
use std::marker::Model;

/// How many virtual pages there may be.
const MOST_VPAGES: u32 = 4096;

/// A set of virtual pages, whose numbers are below 4,096. Contracts see the list of its members, ascending. It takes no
/// memory of the heap.
#[derive(Debug, Drop)]
pub struct VPageSet {
    words: [u64; 64],
}

impl Model for VPageSet {
    ghost use Rattle.std.specs.Prelude.{◌≡◌, List, ℕ, length};

    ghost Value = { List ℕ };

    ghost use Rattle.nm_vpages.specs.Bits.{members};

    ghost view = { λ s. members s.words };

    ghost invariant = { λ s. length s.words ≡ 64 };
}

/// The least bit of a word, from one on, that is set. None exactly where there is none. Condition: a word has that bit.
fn next_set(word: u64, start: u32) -> Option<u32>
    requires { start < 64 }
    ensures some { IfSome result (IsNextSet word start) }
    ensures none { IfNone result (HasNoneSet word start) }
{
    let rest = word >> start;
    if rest == 0 {
        None
    } else {
        Some(start + rest.trailing_zeros())
    }
}

impl VPageSet {
    /// The empty set.
    pub fn new() -> VPageSet
        ensures { result ≡ [] }
    {
        VPageSet { words: [0; 64] }
    }

    /// The virtual pages of a backing page.
    pub fn of_page(g: &Geometry, page: u32) -> VPageSet
        ensures { result ≡ vpages_of g.now page }
    {
        let _vpages = &g.vpages;
        let mut pages = VPageSet::new();
        let mut from = 0;
        while let Some(vpage) = g.next_vpage(page, from) {
            pages.push(vpage);
            from = vpage + 1;
        }
        pages
    }

    /// A set with the same members.
    pub fn copy(&self) -> VPageSet
        ensures { result ≡ self.now }
    {
        VPageSet { words: self.words }
    }

    /// Adds a virtual page. Conditions: its number is below 4,096, and greater than all that are in the set.
    pub fn push(&mut self, vpage: u32)
        requires small { vpage < most_vpages }
        requires last { AreBelow vpage self.old }
        ensures { self.new ≡ self.old ++ vpage ∷ [] }
    {
        self.words[vpage as usize / 64] |= 1 << (vpage % 64);
    }

    /// Takes all members out.
    pub fn clear(&mut self)
        ensures { self.new ≡ [] }
    {
        self.words = [0; 64];
    }

    /// The least member that is at least `from`. None exactly where there is none.
    pub fn next(&self, from: u32) -> Option<u32>
        ensures some { IfSome result (λ v. at_or_after from self.now ≡ v ∷ at_or_after (v + 1) self.now) }
        ensures small { IfSome result (λ v. v < most_vpages) }
        ensures none { IfNone result (at_or_after from self.now ≡ []) }
    {
        let mut at = from;
        while at < MOST_VPAGES {
            let start = at % 64;
            match next_set(self.words[at as usize / 64], start) {
                Some(bit) => return Some(at - start + bit),
                None => at += 64 - start,
            }
        }
        None
    }

    /// Whether there is no member.
    pub fn is_empty(&self) -> bool
        ensures { IsTrue result ↔ (self.now ≡ []) }
    {
        self.next(0).is_none()
    }

    /// Whether this virtual page is the only member.
    pub fn is_only(&self, vpage: u32) -> bool
        ensures { IsTrue result ↔ (self.now ≡ vpage ∷ []) }
    {
        match self.next(0) {
            None => false,
            Some(least) => least == vpage && self.next(least + 1).is_none(),
        }
    }

    /// How many members there are: at most 4,096.
    pub fn len(&self) -> u32
        ensures count { result ≡ length self.now }
        ensures few { result ≤ most_vpages }
    {
        let _words = &self.words;
        let mut count = 0;
        let mut from = 0;
        while let Some(vpage) = self.next(from) {
            count += 1;
            from = vpage + 1;
        }
        count
    }
}
