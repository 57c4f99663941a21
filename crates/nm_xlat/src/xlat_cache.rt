//! A fully associative translation cache.
ghost use Rattle.std.specs.Prelude.{◌≡◌, ◌≢◌, ◌⊎◌, ℕ, ◌≤◌, [], Some, None, IfOk, IfErr};

use crate::translations::{Entry, Translations};
use std::alloc::{AllocError, Global};
use std::marker::Model;

/// A virtual page with its entry.
#[derive(Clone, Copy, Debug, PartialEq, Eq)]
pub struct CachedPage {
    pub page: u32,
    pub entry: Entry,
}

/// A translation cache that may have an entry of any page at any place, up to its room. A put of a new page into a full
/// cache drops the entry of the least page.
#[derive(Debug, Drop)]
pub struct XlatCache {
    room: u32,
    entries: Vec<CachedPage>,
}

impl Model for XlatCache {
    ghost use Rattle.std.specs.Prelude.{◌≤◌, length, vec_capacity};
    ghost use Rattle.nm_xlat.specs.FullyAssociative.{FullyAssociative};
    ghost use Rattle.nm_xlat.specs.Entries.{IsAscending};

    ghost Value = { FullyAssociative };

    ghost view = { λ c. record { room = c.room; entries = c.entries.items } };

    ghost invariant = { λ c. IsAscending c.entries.items × (1 ≤ c.room) × (length c.entries.items ≤ c.room) × (c.room ≤ vec_capacity c.entries) };
}

impl XlatCache {
    ghost use Rattle.nm_xlat.specs.Entries.{entry_at};
    ghost use Rattle.nm_xlat.specs.FullyAssociative.{put_in};
    ghost use Rattle.nm_xlat.specs.Places.{IsEntryAt, IsGap, IsFrom};

    /// An empty cache that may have `room` entries. Its memory is taken here, and the only error is its want.
    pub fn with_room(alloc: Global, room: u32) -> Result<XlatCache, AllocError>
        requires { 1 ≤ room }
        ensures { IfOk result (λ c. c ≡ record { room = room; entries = [] }) }
    {
        Ok(XlatCache {
            room,
            entries: Vec::with_capacity(alloc, room as usize)?,
        })
    }

    // Where the entry of v is, or else where it would go.
    fn search(&self, v: u32) -> Result<usize, usize>
        ensures found { IfOk result (IsEntryAt v self.now.entries) }
        ensures absent { IfErr result (IsGap v self.now.entries) }
    {
        self.entries.binary_search_by_key(&v, |x| x.page)
    }

    // The place of the least page from `from` on, or else the number of entries.
    fn place_from(&self, from: u32) -> usize
        ensures { IsFrom from self.now.entries result }
    {
        match self.search(from) {
            Ok(at) => at,
            Err(gap) => gap,
        }
    }

    fn find(&self, v: u32) -> Option<Entry>
        ensures { result ≡ entry_at v self.now.entries }
    {
        match self.search(v) {
            Ok(at) => Some(self.entries[at].entry),
            Err(_) => None,
        }
    }

    fn put_page(&mut self, put: CachedPage)
        ensures { self.new ≡ put_in put self.old }
    {
        match self.search(put.page) {
            Ok(at) => self.entries[at] = put,
            Err(at) if self.entries.len() < self.room as usize => {
                self.entries.insert(at, put).unwrap();
            }
            Err(at) => {
                // The least page goes, and those after it move down by one.
                self.entries.remove(0);
                self.entries.insert(at.saturating_sub(1), put).unwrap();
            }
        }
    }
}

impl Translations for XlatCache {
    ghost use Rattle.nm_xlat.specs.Entries.{entry_at, entries_without};
    ghost use Rattle.nm_xlat.specs.FullyAssociative.{put_in};

    ghost entry = { λ c v. entry_at v c.entries };

    fn get(&self, v: u32) -> Option<(u32, bool)> {
        let entry = self.find(v)?;
        Some((entry.frame, entry.dirty))
    }

    fn put(&mut self, v: u32, frame: u32, dirty: bool, stamp: u64)
        ensures this_page { entry_at v self.new.entries ≡ Some (record { frame = frame; dirty = dirty; stamp = stamp }) }
        ensures other_pages { (w : ℕ) → w ≢ v → (entry_at w self.new.entries ≡ entry_at w self.old.entries) ⊎ (entry_at w self.new.entries ≡ None) }

        // Which entries are lost: none, but the least page's where v is new and the cache is full.
        ensures whole { self.new ≡ put_in (record { page = v; entry = record { frame = frame; dirty = dirty; stamp = stamp } }) self.old }
    {
        self.put_page(CachedPage {
            page: v,
            entry: Entry {
                frame,
                dirty,
                stamp,
            },
        });
    }

    fn clear(&mut self)
        ensures every_page { (w : ℕ) → entry_at w self.new.entries ≡ None }
        ensures whole { self.new ≡ record self.old { entries = [] } }
    {
        self.entries.clear();
    }

    fn stamp_of(&self, v: u32) -> Option<u64> {
        Some(self.find(v)?.stamp)
    }

    fn next(&self, from: u32) -> Option<u32> {
        let at = self.place_from(from);
        Some(self.entries.get(at)?.page)
    }

    fn drop_entry(&mut self, v: u32)
        ensures this_page { entry_at v self.new.entries ≡ None }
        ensures other_pages { (w : ℕ) → w ≢ v → entry_at w self.new.entries ≡ entry_at w self.old.entries }
        ensures whole { self.new ≡ record self.old { entries = entries_without v self.old.entries } }
    {
        if let Ok(at) = self.search(v) {
            self.entries.remove(at);
        }
    }
}
