//! The table words that were taken out of the table.

ghost use Rattle.std.specs.Prelude.{◌≡◌, ◌+◌, ◌<◌, [], ◌∷◌, ◌++◌, length, drop, IfOk, IfSome, IfNone};
ghost use Rattle.nm_vpages.specs.VPages.{most_vpages};

use std::alloc::{AllocError, Global};
use std::marker::Model;

/// How many virtual pages there may be.
const MOST_VPAGES: usize = 4096;

/// The table words that were taken out of the table, each with its virtual page, in the order in which they were taken. Its
/// room, for 4,096 of them, is taken once.
#[derive(Debug, Drop)]
pub struct TakenWords {
    words: Vec<(u32, u64)>,
}

impl Model for TakenWords {
    ghost use Rattle.std.specs.Prelude.{◌≤◌, List, ℕ, vec_capacity};
    ghost use Rattle.nm_vpages.specs.VPages.{most_vpages};

    ghost Value = { List (ℕ × ℕ) };

    ghost view = { λ t. t.words.items };

    ghost invariant = { λ t. most_vpages ≤ vec_capacity t.words };
}

impl TakenWords {
    /// No words, with room for 4,096. The only error is want of memory.
    pub fn with_room(alloc: Global) -> Result<TakenWords, AllocError>
        ensures { IfOk result (λ t. t ≡ []) }
    {
        let words = Vec::with_capacity(alloc, MOST_VPAGES)?;
        Ok(TakenWords { words })
    }

    /// Adds a word. Condition: there are fewer than 4,096. It takes no memory.
    pub fn push(&mut self, vpage: u32, word: u64)
        requires { length self.old < most_vpages }
        ensures { self.new ≡ self.old ++ (vpage, word) ∷ [] }
    {
        self.words.push_reserved((vpage, word));
    }

    /// Takes all words out. The room stays.
    pub fn clear(&mut self)
        ensures { self.new ≡ [] }
    {
        self.words.clear();
    }

    /// The word at a place, with its virtual page. None exactly where there are no more than so many words.
    pub fn get(&self, index: u32) -> Option<(u32, u64)>
        ensures some { IfSome result (λ p. drop index self.now ≡ p ∷ drop (index + 1) self.now) }
        ensures none { IfNone result (drop index self.now ≡ []) }
    {
        self.words.get(index as usize).copied()
    }
}
