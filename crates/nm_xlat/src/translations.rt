//! What a translation cache is to its users: a finite map from virtual pages to entries.
ghost use Rattle.std.specs.Prelude.{◌≡◌, ◌≢◌, ◌⊎◌, ℕ, Option, Some, None, MatchOption};
ghost use Rattle.std.specs.Option.{option_map};

/// The cached translation of a virtual page: its frame, whether it may serve a write, and the page's stamp when it was
/// read.
#[derive(Clone, Copy, Debug, PartialEq, Eq)]
pub struct Entry {
    pub frame: u32,
    pub dirty: bool,
    pub stamp: u64,
}

/// A cache of translations. None of its calls takes memory.
pub trait Translations {
    ghost use Rattle.nm_xlat.specs.declared.translations.Entry.{Entry};
    ghost use Rattle.nm_xlat.specs.Translations.{translation_of, IsLeastFrom, HasNoneFrom};

    /// The entry of each virtual page that has one.
    ghost entry: { Self → ℕ → Option Entry };

    /// The frame and the dirty bit of v's entry; `None` exactly where v has none.
    fn get(&self, v: u32) -> Option<(u32, bool)>
        ensures { result ≡ option_map translation_of (entry self.now v) };

    /// Sets the entry of v. Each other page keeps its entry or loses it; each implementation says which are lost.
    fn put(&mut self, v: u32, frame: u32, dirty: bool, stamp: u64)
        ensures this_page { entry self.new v ≡ Some (record { frame = frame; dirty = dirty; stamp = stamp }) }
        ensures other_pages { (w : ℕ) → w ≢ v → (entry self.new w ≡ entry self.old w) ⊎ (entry self.new w ≡ None) };

    /// Drops every entry.
    fn clear(&mut self)
        ensures { (w : ℕ) → entry self.new w ≡ None };

    /// The stamp of v's entry; `None` exactly where v has none.
    fn stamp_of(&self, v: u32) -> Option<u64>
        ensures { result ≡ option_map (λ e. e.stamp) (entry self.now v) };

    /// The least page from `from` on that has an entry; `None` exactly where none has.
    fn next(&self, from: u32) -> Option<u32>
        ensures { MatchOption result (HasNoneFrom (entry self.now) from) (IsLeastFrom (entry self.now) from) };

    /// Drops the entry of v, if it has one, and no other.
    fn drop_entry(&mut self, v: u32)
        ensures this_page { entry self.new v ≡ None }
        ensures other_pages { (w : ℕ) → w ≢ v → entry self.new w ≡ entry self.old w };
}
