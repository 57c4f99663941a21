//! Lists of as many items as a batch has pieces.

ghost use Rattle.std.specs.Prelude.{◌≡◌, ◌+◌, ◌<◌, ◌≤◌, [], ◌∷◌, ◌++◌, length, drop, IfSome, IfNone};

use arrayvec::ArrayVec;
use std::marker::Model;

/// A list with an item for each piece of a batch, or for each of some of them: at most 8. It takes no memory of the heap.
#[derive(Drop)]
pub struct PieceList<T> {
    items: ArrayVec<T, 8>,
}

impl<T> Model for PieceList<T> {
    ghost use Rattle.std.specs.Prelude.{List};

    ghost Value = { List T };

    ghost view = { λ l. l.items.items };
}

impl<T: Copy + Default> PieceList<T> {
    /// No items.
    pub fn new() -> PieceList<T>
        ensures { result ≡ [] }
    {
        PieceList {
            items: ArrayVec::new(),
        }
    }

    /// The list of these items. Condition: there are at most 8.
    pub fn of(items: &[T]) -> PieceList<T>
        requires { length items.now ≤ 8 }
        ensures { result ≡ items.now }
    {
        let mut list = PieceList::new();
        for item in items {
            list.push(*item);
        }
        list
    }

    /// Adds an item. Condition: there are fewer than 8.
    pub fn push(&mut self, item: T)
        requires { length self.old < 8 }
        ensures { self.new ≡ self.old ++ item ∷ [] }
    {
        self.items.push(item);
    }

    /// The item at a place. None exactly where there are no more than so many items.
    pub fn get(&self, index: usize) -> Option<T>
        ensures some { IfSome result (λ x. drop index self.now ≡ x ∷ drop (index + 1) self.now) }
        ensures none { IfNone result (drop index self.now ≡ []) }
    {
        self.items.as_slice().get(index).copied()
    }

    /// How many items there are: at most 8.
    pub fn len(&self) -> usize
        ensures count { result ≡ length self.now }
        ensures few { result ≤ 8 }
    {
        self.items.len()
    }
}
