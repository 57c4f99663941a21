//! Both lanes of backing pages on one thread.
ghost use Rattle.std.specs.Prelude.{◌≡◌, ◌↔◌, ◌<◌, ◌≤◌, [], length, drop, slice_get, IsErr, IsNone, OnOk, OnErr, IfOk};
ghost use Rattle.nm_actor.specs.Lanes.{held_with};
ghost use Rattle.nm_queue.specs.Ports.{PortLanes, held_in, with_held, without_first};

use nm_action::{Full, Lane};
use std::alloc::{AllocError, Global};
use std::collections::VecDeque;
use std::marker::Model;

// One lane: the pages that it holds, in a ring that has room for its capacity.
#[derive(Debug, Drop)]
struct Ring {
    capacity: u32,
    pages: VecDeque<u32>,
}

impl Model for Ring {
    ghost use Rattle.std.specs.Prelude.{◌≤◌, length};
    ghost use Rattle.std.specs.VecDeque.{deque_capacity};
    ghost use Rattle.nm_actor.specs.Lanes.{Held};

    ghost Value = { Held };

    ghost view = { λ r. record { capacity = r.capacity; pages = r.pages.items } };

    ghost invariant = { λ r. (length r.pages.items ≤ r.capacity) × (r.capacity ≤ deque_capacity r.pages) };
}

impl Ring {
    fn new(alloc: Global, capacity: u32) -> Result<Ring, AllocError>
        ensures { IfOk result (λ r. r ≡ record { capacity = capacity; pages = [] }) }
    {
        Ok(Ring {
            capacity,
            pages: VecDeque::with_capacity(alloc, capacity as usize)?,
        })
    }

    fn put(&mut self, page: u32) -> Result<(), Full>
        ensures full { IsErr result ↔ (length self.old.pages ≡ self.old.capacity) }
        ensures room { OnOk result (length self.old.pages < self.old.capacity) }
        ensures put { OnOk result (self.new ≡ held_with page self.old) }
        ensures kept { OnErr result (self.new ≡ self.old) }
    {
        if self.pages.len() >= self.capacity as usize {
            return Err(Full);
        }
        self.pages.push_back_reserved(page);
        Ok(())
    }

    fn take(&mut self) -> Option<u32>
        ensures first { result ≡ slice_get self.old.pages 0 }
        ensures rest { self.new ≡ without_first self.old }
    {
        self.pages.pop_front()
    }
}

/// Both lanes as lists on one thread: what is put in first is taken out first. It is no port of a chair, since it keeps no
/// lane lists.
#[derive(Debug, Drop)]
pub struct RingPort {
    candidates: Ring,
    pending: Ring,
}

impl Model for RingPort {
    ghost use Rattle.nm_queue.specs.Ports.{PortLanes};

    ghost Value = { PortLanes };

    ghost view = { λ p. record { candidates = p.candidates; pending = p.pending } };
}

impl RingPort {
    /// Two empty lanes that can hold this many pages each, 1 to 4,096. Their memory is taken here, and the only error is its
    /// want.
    pub fn new(alloc: Global, candidates: u32, pending: u32) -> Result<RingPort, AllocError>
        requires candidates { (1 ≤ candidates) × (candidates ≤ 4096) }
        requires pending { (1 ≤ pending) × (pending ≤ 4096) }
        ensures { IfOk result (λ p. p ≡ record { candidates = record { capacity = candidates; pages = [] }; pending = record { capacity = pending; pages = [] } }) }
    {
        Ok(RingPort {
            candidates: Ring::new(alloc, candidates)?,
            pending: Ring::new(alloc, pending)?,
        })
    }

    /// Puts a page at the end of a lane. `Full` comes exactly where the lane holds as many pages as it can, and nothing is
    /// changed then. It takes no memory, and its time doesn't depend on how many pages there are.
    pub fn put(&mut self, lane: Lane, page: u32) -> Result<(), Full>
        ensures full { IsErr result ↔ (length (held_in lane self.old).pages ≡ (held_in lane self.old).capacity) }
        ensures room { OnOk result (length (held_in lane self.old).pages < (held_in lane self.old).capacity) }
        ensures put { OnOk result (self.new ≡ with_held lane (held_with page (held_in lane self.old)) self.old) }
        ensures kept { OnErr result (self.new ≡ self.old) }
    {
        match lane {
            Lane::Candidates => self.candidates.put(page),
            Lane::Pending => self.pending.put(page),
        }
    }

    /// Takes the first page of a lane. `None` comes exactly where the lane is empty, and nothing is changed then. It takes no
    /// memory, and its time doesn't depend on how many pages there are.
    pub fn take(&mut self, lane: Lane) -> Option<u32>
        ensures empty { IsNone result ↔ ((held_in lane self.old).pages ≡ []) }
        ensures first { result ≡ slice_get (held_in lane self.old).pages 0 }
        ensures rest { self.new ≡ with_held lane (without_first (held_in lane self.old)) self.old }
    {
        match lane {
            Lane::Candidates => self.candidates.take(),
            Lane::Pending => self.pending.take(),
        }
    }
}
