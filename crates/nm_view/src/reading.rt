//! What a view has: operations, owned frames, flushes that ended.

ghost use Rattle.std.specs.Prelude.{◌≡◌, ◌≤◌, ◌<◌, ◌↔◌, IsTrue};
ghost use Rattle.std.specs.Option.{option_copied};
ghost use Rattle.nm_base.specs.Geometry.{backing_page};
ghost use Rattle.nm_view.specs.Operations.{op_on, op_of, fill_of, known_home, are_seen, is_flush_ended, IsFlushEnded};

use crate::keyed::{look_up, place};
use crate::view::{ActorView, Fill, OpenOp};
use nm_base::Geometry;
use nm_base::table_word::has_bit;

/// Whether the processors below `cpus` are seen.
#[tactic(auto, using(crate::proofs::Known::are_seen_more, crate::proofs::Known::are_seen_not))]
fn are_seen(cpus: u32, seen: u32) -> bool
    requires { cpus ≤ 32 }
    ensures { result ≡ are_seen cpus seen }
{
    for cpu in 0..cpus {
        if !has_bit(u64::from(seen), cpu) {
            return false;
        }
    }
    true
}

/// Whether an operation is not due, and has no flush number or saw every processor.
fn is_flushed(g: &Geometry, op: &OpenOp) -> bool
    ensures { result ≡ is_flush_ended g.now op.now }
{
    if op.due {
        return false;
    }
    match op.flush {
        Some(_) => are_seen(g.cpus, op.seen),
        None => true,
    }
}

impl OpenOp {
    /// Whether the flush ended: the operation is not due, and it has no flush number or every processor is seen.
    pub fn flush_ended(&self, g: &Geometry) -> bool
        ensures decided { result ≡ is_flush_ended g.now self.now }
        ensures ended { IsTrue result ↔ IsFlushEnded g.now self.now }
    {
        is_flushed(g, self)
    }
}

impl ActorView {
    /// The operation on a page.
    pub fn op_on(&self, page: u32) -> Option<&OpenOp>
        ensures { option_copied result ≡ op_on self.now page }
    {
        match place(&self.ops, page) {
            Some(i) => Some(&self.ops[i]),
            None => None,
        }
    }

    /// The operation on the backing page of a virtual page.
    pub fn op_of(&self, g: &Geometry, vpage: u32) -> Option<&OpenOp>
        ensures { option_copied result ≡ op_of g.now self.now vpage }
    {
        match g.backing(vpage) {
            Some(page) => self.op_on(page),
            None => None,
        }
    }

    /// The home word that the operation on a page knows.
    pub fn known_home(&self, page: u32) -> Option<u64>
        ensures { result ≡ known_home (op_on self.now page) }
    {
        match self.op_on(page) {
            Some(op) => op.home,
            None => None,
        }
    }

    /// What is known of the words of a frame that the view owns.
    pub fn fill_of(&self, frame: u32) -> Option<Fill>
        ensures { result ≡ fill_of self.now frame }
    {
        match look_up(&self.owned, frame) {
            Some(owned) => Some(owned.fill),
            None => None,
        }
    }
}
