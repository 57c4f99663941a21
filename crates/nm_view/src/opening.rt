//! Opening and closing operations. A closed operation is kept for its room, so that neither takes memory.

ghost use Rattle.std.specs.Prelude.{◌≡◌, ◌+◌, ◌<◌, ◌≤◌, ◌∷◌, ◌++◌, [], All, length, vec_capacity};
ghost use Rattle.nm_view.specs.Lists.{erase};
ghost use Rattle.nm_view.specs.Views.{Op, View, most_ops};
ghost use Rattle.nm_view.specs.Operations.{page_of};
ghost use Rattle.nm_view.specs.Opening.{opened};

use crate::keyed::place;
use crate::view::{ActorView, OpenOp, Phase};

impl OpenOp {
    /// Makes it an operation in which nothing is known.
    fn reset(&mut self, page: u32)
        ensures { self.new ≡ opened page self.old.room }
    {
        self.page = page;
        self.home = None;
        self.shadow = None;
        self.looked.clear();
        self.taken.clear();
        self.phase = Phase::Held;
        self.cleared = false;
        self.moved = false;
        self.due = false;
        self.flush = None;
        self.seen = 0;
        self.copied = 0;
        self.last = None;
        self.wet.clear();
        self.raised.clear();
    }
}

/// Takes a closed operation out, as one on a page in which nothing is known.
fn reopened(closed: &mut Vec<OpenOp>, page: u32, room: usize) -> OpenOp
    requires some { 0 < length closed.old.items }
    requires room { All (λ o. o.room ≡ room) closed.old.items }
    ensures op { result ≡ opened page room }
    ensures length { length closed.new.items + 1 ≡ length closed.old.items }
    ensures capacity { vec_capacity closed.new ≡ vec_capacity closed.old }
    ensures rest { All (λ o. o.room ≡ room) closed.new.items }
{
    let mut op = closed.take_last();
    op.reset(page);
    op
}

/// Takes the operation on a page out of the open ones, and keeps it for its room.
fn shelve(ops: &mut Vec<OpenOp>, closed: &mut Vec<OpenOp>, page: u32, room: usize)
    requires capacity { length ops.old.items + length closed.old.items ≤ vec_capacity closed.old }
    requires open { All (λ o. o.room ≡ room) ops.old.items }
    requires closed { All (λ o. o.room ≡ room) closed.old.items }
    ensures ops { ops.new.items ≡ erase page_of page ops.old.items }
    ensures count { length ops.new.items + length closed.new.items ≡ length ops.old.items + length closed.old.items }
    ensures room { All (λ o. o.room ≡ room) closed.new.items }
    ensures ops_capacity { vec_capacity ops.new ≡ vec_capacity ops.old }
    ensures closed_capacity { vec_capacity closed.new ≡ vec_capacity closed.old }
{
    if let Some(i) = place(ops, page) {
        let op = ops.remove(i);
        closed.push_reserved(op);
    }
}

impl ActorView {
    /// Opens an operation on a page.
    pub fn open_op(&mut self, page: u32)
        requires { length self.old.ops < most_ops }
        ensures { self.new ≡ record self.old { ops = self.old.ops ++ opened page self.old.room.aliases ∷ [] } }
    {
        let room = self.room.aliases;
        let op = reopened(&mut self.closed, page, room);
        self.ops.push_reserved(op);
    }

    /// Closes the operation on a page.
    pub fn close_op(&mut self, page: u32)
        requires { All (λ o. o.room ≡ self.old.room.aliases) self.old.ops }
        ensures { self.new ≡ record self.old { ops = erase page_of page self.old.ops } }
    {
        let room = self.room.aliases;
        shelve(&mut self.ops, &mut self.closed, page, room);
    }
}
