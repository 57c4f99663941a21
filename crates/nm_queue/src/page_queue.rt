//! A queue of backing pages that several threads share.
ghost use Rattle.std.specs.Prelude.{◌≡◌, ◌≤◌, IfOk, IsSome};
ghost use Rattle.nm_queue.specs.Histories.{pages_left};
ghost use Rattle.nm_queue.specs.Passes.{IsAlone, IsWholeHistory, first_pass, made_pass, after_making, with_joined, IsPushAnswer, IsPopAnswer};

use crate::rule::{Joining, Making, Ruled, RuledPass, Whole, move_first, put, take};
use nm_action::Full;
use std::alloc::{AllocError, Global};
use std::marker::{Brand, Model};
use std::sync::Wait;

/// A queue of pages that several threads share, each by a pass of its own. What is put in first is taken out first.
#[derive(Drop)]
pub struct PageQueue {
    queue: Ruled,
    left: Vec<u32>,
}

impl Model for PageQueue {
    ghost use Rattle.std.specs.Prelude.{◌≡◌, ◌≤◌, [], vec_capacity};
    ghost use Rattle.crossbeam_queue.specs.Passes.{ruled_capacity};
    ghost use Rattle.nm_queue.specs.Passes.{QueueState};

    ghost Value = { QueueState };

    ghost view = { λ q. record { name = record { table = q.queue.table.shared.table_id }; capacity = ruled_capacity q.queue } };

    ghost invariant = { λ q. (q.left.items ≡ []) × (ruled_capacity q.queue ≤ vec_capacity q.left) };
}

/// What one thread does on a queue: which pages it put and took, and how often it found the queue full or empty.
#[derive(Drop)]
pub struct QueuePass {
    pass: RuledPass,
    fulls: u64,
    empties: u64,
}

impl Model for QueuePass {
    ghost use Rattle.std.specs.Prelude.{◌≡◌, true, []};
    ghost use Rattle.nm_queue.specs.Passes.{PassState};

    ghost Value = { PassState };

    ghost view = { λ p. record { queue = record { table = p.pass.table_id }; known = p.pass.me.0.client; fulls = p.fulls; empties = p.empties } };

    ghost invariant = { λ p. (p.pass.me.1 ≡ []) × (p.pass.me.0.client.live ≡ true) };
}

impl PageQueue {
    /// An empty queue that can hold `capacity` pages, 1 to 4,096, with its first pass. Its memory is taken here, and the only
    /// error is its want.
    pub fn new(alloc: Global, capacity: u32) -> Result<(PageQueue, QueuePass), AllocError>
        requires { (1 ≤ capacity) × (capacity ≤ 4096) }
        ensures queue { IfOk result (λ r. r.0.capacity ≡ capacity) }
        ensures pass { IfOk result (λ r. r.1 ≡ record { queue = r.0.name; known = first_pass; fulls = 0; empties = 0 }) }
    {
        let left = Vec::with_capacity(alloc, capacity as usize)?;
        let (queue, pass) = Ruled::ruled(alloc, capacity as usize)?;
        let first = QueuePass {
            pass,
            fulls: 0,
            empties: 0,
        };
        Ok((PageQueue { queue, left }, first))
    }

    /// One more pass of the queue, which has done nothing yet. `first` is the pass that `new` gave, or one into which that was
    /// joined.
    pub fn pass<T: Wait>(&self, _rt: &T, first: &mut QueuePass) -> QueuePass
        requires queue { first.old.queue ≡ self.now.name }
        requires first { IsSome first.old.known.made }
        ensures first { first.new ≡ record first.old { known = after_making first.old.known } }
        ensures made { result ≡ record { queue = first.old.queue; known = made_pass first.old.known; fulls = 0; empties = 0 } }
    {
        let pass = self.queue.another::<Making>(&mut first.pass);
        QueuePass {
            pass,
            fulls: 0,
            empties: 0,
        }
    }

    /// Puts a page into the queue. `Full` raises the pass's count of these by one; a count of 2^64 - 1 stays. It comes only where
    /// the queue is full after a history that goes on from what the pass had seen; where every other pass was joined into this
    /// one, it comes exactly where the queue is full. It takes no memory, and may wait.
    pub fn push<T: Wait>(&self, rt: &T, pass: &mut QueuePass, page: u32) -> Result<(), Full>
        requires { pass.old.queue ≡ self.now.name }
        ensures { IsPushAnswer self.now.capacity page pass.old pass.new result }
    {
        match put::<Brand, T>(rt, &self.queue, &mut pass.pass, page) {
            Ok(()) => Ok(()),
            Err(_) => {
                pass.fulls = pass.fulls.saturating_add(1);
                Err(Full)
            }
        }
    }

    /// Takes the first page of the queue. `None` raises the pass's count of these by one; a count of 2^64 - 1 stays. It comes only
    /// where the queue is empty after a history that goes on from what the pass had seen; where every other pass was joined into
    /// this one, it comes exactly where the queue is empty. It takes no memory, and may wait.
    pub fn pop<T: Wait>(&self, rt: &T, pass: &mut QueuePass) -> Option<u32>
        requires { pass.old.queue ≡ self.now.name }
        ensures { IsPopAnswer pass.old pass.new result }
    {
        match take(rt, &self.queue, &mut pass.pass) {
            Some(page) => Some(page),
            None => {
                pass.empties = pass.empties.saturating_add(1);
                None
            }
        }
    }

    /// Joins a pass into another: the other tells its own lists and counts as before, and beside them the lists of the first
    /// and of those that were joined into it.
    pub fn join<T: Wait>(&self, _rt: &T, into: &mut QueuePass, other: QueuePass)
        requires queue { into.old.queue ≡ self.now.name }
        requires other { other.queue ≡ self.now.name }
        ensures joined { into.new ≡ record into.old { known = with_joined other.known into.old.known } }
        ensures whole { IsAlone into.new.known → IsWholeHistory into.new.known }
    {
        let QueuePass { pass, .. } = other;
        self.queue.absorb::<Joining>(&mut into.pass, pass);
        self.queue.learn_as::<Whole>(&mut into.pass);
    }

    /// Ends the queue, and gives the pages that were put and not taken, in order. Every other pass was joined into this one. It
    /// takes no memory, and may wait.
    pub fn close<T: Wait>(self, rt: &T, pass: QueuePass) -> Vec<u32>
        requires queue { pass.queue ≡ self.name }
        requires alone { IsAlone pass.known }
        ensures whole { IsWholeHistory pass.known }
        ensures left { result.items ≡ pages_left pass.known.seen }
    {
        let PageQueue { queue, mut left } = self;
        let QueuePass { mut pass, .. } = pass;
        let held = queue.len_as::<Whole, T>(rt, &mut pass);
        for _ in 0..held {
            move_first(rt, &queue, &mut pass, &mut left);
        }
        left
    }
}
