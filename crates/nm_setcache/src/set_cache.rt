//! A set-associative translation cache, made of one fully associative cache for each set.
ghost use Rattle.std.specs.Prelude.{◌≡◌, ◌≢◌, ◌⊎◌, ℕ, ◌%◌, ◌≤◌, [], Some, None, IfOk};
ghost use Rattle.nm_setcache.specs.Sets.{lesser_of};

use nm_xlat::{Translations, XlatCache};
use std::alloc::{AllocError, Global};
use std::marker::Model;

/// A translation cache of several sets. Page v lies in the set `v mod sets`, which may have `ways` entries. A put of a
/// new page into a full set drops the entry of the set's least page.
#[derive(Debug, Drop)]
pub struct SetCache {
    sets: Vec<XlatCache>,
}

impl Model for SetCache {
    ghost use Rattle.std.specs.Prelude.{length};
    ghost use Rattle.nm_setcache.specs.SetAssociative.{SetAssociative};
    ghost use Rattle.nm_setcache.specs.Sets.{entries_of_sets, ways_of, AreSets};

    ghost Value = { SetAssociative };

    ghost view = { λ c. record { sets = length c.sets.items; ways = ways_of c.sets.items; entries = entries_of_sets c.sets.items } };

    ghost invariant = { λ c. AreSets c.sets.items };
}

impl SetCache {
    ghost use Rattle.nm_setcache.specs.SetAssociative.{entries_of_set};

    /// An empty cache of `sets` sets, each of which may have `ways` entries. Its memory is taken here, and the only error
    /// is its want.
    pub fn with_room(alloc: Global, sets: u32, ways: u32) -> Result<SetCache, AllocError>
        requires sets_in_range { (1 ≤ sets) × (sets ≤ 64) }
        requires ways_in_range { (1 ≤ ways) × (ways ≤ 64) }
        ensures { IfOk result (λ c. c ≡ record { sets = sets; ways = ways; entries = [] }) }
    {
        let mut all = Vec::with_capacity(alloc, sets as usize)?;
        for _set in 0..sets {
            all.push_reserved(XlatCache::with_room(alloc, ways)?);
        }
        Ok(SetCache { sets: all })
    }

    // The set of page v.
    fn set_of(&self, v: u32) -> &XlatCache
        ensures { result.now.entries ≡ entries_of_set self.now.sets v self.now.entries }
    {
        &self.sets[v as usize % self.sets.len()]
    }
}

impl Translations for SetCache {
    ghost use Rattle.nm_xlat.specs.Entries.{entry_at, entries_without};
    ghost use Rattle.nm_setcache.specs.SetAssociative.{put_in_set};

    ghost entry = { λ c v. entry_at v c.entries };

    fn get(&self, v: u32) -> Option<(u32, bool)> {
        self.set_of(v).get(v)
    }

    fn put(&mut self, v: u32, frame: u32, dirty: bool, stamp: u64)
        ensures this_page { entry_at v self.new.entries ≡ Some (record { frame = frame; dirty = dirty; stamp = stamp }) }
        ensures other_pages { (w : ℕ) → w ≢ v → (entry_at w self.new.entries ≡ entry_at w self.old.entries) ⊎ (entry_at w self.new.entries ≡ None) }

        // Which entries are lost: none, but that of the least page of v's set where v is new and the set is full.
        ensures whole { self.new ≡ put_in_set (record { page = v; entry = record { frame = frame; dirty = dirty; stamp = stamp } }) self.old }
    {
        let at = v as usize % self.sets.len();
        self.sets[at].put(v, frame, dirty, stamp);
    }

    fn clear(&mut self)
        ensures every_page { (w : ℕ) → entry_at w self.new.entries ≡ None }
        ensures whole { self.new ≡ record self.old { entries = [] } }
    {
        for set in self.sets.iter_mut() {
            set.clear();
        }
    }

    fn stamp_of(&self, v: u32) -> Option<u64> {
        self.set_of(v).stamp_of(v)
    }

    fn next(&self, from: u32) -> Option<u32> {
        let mut least = None;
        for set in &self.sets {
            least = lesser(least, set.next(from));
        }
        least
    }

    fn drop_entry(&mut self, v: u32)
        ensures this_page { entry_at v self.new.entries ≡ None }
        ensures other_pages { (w : ℕ) → w ≢ v → entry_at w self.new.entries ≡ entry_at w self.old.entries }
        ensures whole { self.new ≡ record self.old { entries = entries_without v self.old.entries } }
    {
        let at = v as usize % self.sets.len();
        self.sets[at].drop_entry(v);
    }
}

// The lesser of two pages, where there are any.
fn lesser(a: Option<u32>, b: Option<u32>) -> Option<u32>
    ensures { result ≡ lesser_of a b }
{
    match (a, b) {
        (Some(x), Some(y)) => Some(x.min(y)),
        (Some(x), None) => Some(x),
        (None, _) => b,
    }
}
