//! Lists whose items have a number each. An item is found, changed and taken out by its number.

ghost use Rattle.std.specs.Prelude.{◌≡◌, ◌↔◌, ℕ, ◌≤◌, length, vec_capacity, MatchOption, IsTrue, IsSome, None};
ghost use Rattle.nm_view.specs.Lists.{find, put, erase, IsPlaceOf};

use crate::view::{CacheEntry, OpenOp, Owned, Peeked};

/// What has a number by which a list is searched.
pub trait Keyed {
    ghost key: { Self → ℕ };

    /// The number.
    fn key(&self) -> u32
        ensures { result ≡ key self.now };
}

impl Keyed for u32 {
    ghost use Rattle.nm_view.specs.Lists.{itself};

    ghost key = { itself };

    fn key(&self) -> u32 {
        *self
    }
}

impl Keyed for (u32, u64) {
    ghost use Rattle.nm_view.specs.Lists.{first};

    ghost key = { first };

    fn key(&self) -> u32 {
        self.0
    }
}

impl Keyed for CacheEntry {
    ghost use Rattle.nm_view.specs.Operations.{cached_page};

    ghost key = { cached_page };

    fn key(&self) -> u32 {
        self.vpage
    }
}

impl Keyed for Peeked {
    ghost use Rattle.nm_view.specs.Operations.{peeked_page};

    ghost key = { peeked_page };

    fn key(&self) -> u32 {
        self.vpage
    }
}

impl Keyed for Owned {
    ghost use Rattle.nm_view.specs.Operations.{owned_frame};

    ghost key = { owned_frame };

    fn key(&self) -> u32 {
        self.frame
    }
}

impl Keyed for OpenOp {
    ghost use Rattle.nm_view.specs.Operations.{page_of};

    ghost key = { page_of };

    fn key(&self) -> u32 {
        self.page
    }
}

/// The place of the first item of a number.
pub fn place<T: Keyed>(items: &[T], key: u32) -> Option<usize>
    ensures { MatchOption result (find T.key key items.now ≡ None) (IsPlaceOf T.key key items.now) }
{
    for i in 0..items.len() {
        if items[i].key() == key {
            return Some(i);
        }
    }
    None
}

/// Whether there is an item of a number.
pub fn is_among<T: Keyed>(items: &[T], key: u32) -> bool
    ensures { IsTrue result ↔ IsSome (find T.key key items.now) }
{
    place(items, key).is_some()
}

/// The first item of a number.
pub fn look_up<T: Keyed + Copy>(items: &[T], key: u32) -> Option<T>
    ensures { result ≡ find T.key key items.now }
{
    match place(items, key) {
        Some(i) => Some(items[i]),
        None => None,
    }
}

/// Puts an item in the place of the first of its number, or at the end.
pub fn put<T: Keyed + Copy>(items: &mut Vec<T>, item: T)
    requires { length (put T.key item items.old.items) ≤ vec_capacity items.old }
    ensures items { items.new.items ≡ put T.key item items.old.items }
    ensures capacity { vec_capacity items.new ≡ vec_capacity items.old }
{
    match place(items, item.key()) {
        Some(i) => items[i] = item,
        None => items.push_reserved(item),
    }
}

/// Takes out the first item of a number.
pub fn erase<T: Keyed + Copy>(items: &mut Vec<T>, key: u32)
    ensures items { items.new.items ≡ erase T.key key items.old.items }
    ensures capacity { vec_capacity items.new ≡ vec_capacity items.old }
{
    if let Some(i) = place(items, key) {
        items.remove(i);
    }
}
