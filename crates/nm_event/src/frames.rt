//! How what a view holds changes.

ghost use Rattle.std.specs.Prelude.{◌≡◌, ◌+◌, ◌<◌, ◌≤◌, ◌^◌, ◌∷◌, ◌++◌, [], All, Some, map, length, count_ones, vec_capacity};
ghost use Rattle.std.specs.List.{filter};
ghost use Rattle.nm_view.specs.Lists.{find, edit, erase, put};
ghost use Rattle.nm_view.specs.Views.{Op, View, most_ops};
ghost use Rattle.nm_view.specs.Operations.{page_of, owned_frame, peeked_page, is_flush_ended};
ghost use Rattle.nm_event.specs.After.{edit_of, owning, filled, spoiled, spoiled_frame, spoiled_fill, spoiled_under, is_fresh_at, is_confirmed, stale, is_quiet, scanned_word, least_with};
ghost use Rattle.nm_event.specs.Changes.{op_changed};
ghost use Rattle.nm_event.specs.Room.{IsOpWithin};
ghost use Rattle.nm_base.specs.Geometry.{backing_page};

use crate::change::{OpChange, make_change};
use nm_base::Geometry;
use nm_base::free_words::least_frame;
use nm_view::keyed::{erase, look_up, place, put};
use nm_view::{ActorView, CacheEntry, Fill, OpenOp, Owned, Peeked, Phase, Scanned};

/// Changes the operation on a page, among operations.
fn change_in(ops: &mut [OpenOp], page: u32, change: OpChange)
    requires { (o : Op) → find page_of page ops.old ≡ Some o → IsOpWithin o.room (op_changed change o) }
    ensures { ops.new ≡ edit page_of page (op_changed change) ops.old }
{
    if let Some(i) = place(ops, page) {
        make_change(&mut ops[i], change);
    }
}

/// Changes the operation on a page.
pub(crate) fn change_op(view: &mut ActorView, page: u32, change: OpChange)
    requires { All (IsOpWithin view.old.room.aliases) (edit page_of page (op_changed change) view.old.ops) }
    ensures { view.new ≡ record view.old { ops = edit page_of page (op_changed change) view.old.ops } }
{
    change_in(&mut view.ops, page, change);
}

/// Changes the operation on the backing page of a virtual page.
pub(crate) fn change_op_of(g: &Geometry, view: &mut ActorView, vpage: u32, change: OpChange)
    requires { All (IsOpWithin view.old.room.aliases) (edit_of g.now vpage (op_changed change) view.old.ops) }
    ensures { view.new ≡ record view.old { ops = edit_of g.now vpage (op_changed change) view.old.ops } }
{
    if let Some(page) = g.backing(vpage) {
        change_op(view, page, change);
    }
}

/// A fill of which nothing is known any more where it was copied of a page, or equal to it.
fn spoiled_fill(page: u32, fill: Fill) -> Fill
    ensures { result ≡ spoiled_fill page fill }
{
    match fill {
        Fill::Raw => fill,
        Fill::Zeroed(_) => fill,
        Fill::Copied(of, _) => if of == page { Fill::Raw } else { fill },
        Fill::Equal(of) => if of == page { Fill::Raw } else { fill },
    }
}

/// An owned frame, with nothing known of it any more where it was copied of a page, or equal to it.
fn spoiled_frame(page: u32, owned: Owned) -> Owned
    ensures { result ≡ spoiled_frame page owned }
{
    Owned {
        frame: owned.frame,
        fill: spoiled_fill(page, owned.fill),
    }
}

/// Forgets what was copied of a page, or equal to it.
fn spoil(owned: &mut [Owned], page: u32)
    ensures { owned.new ≡ spoiled page owned.old }
{
    for i in 0..owned.len() {
        owned[i] = spoiled_frame(page, owned[i]);
    }
}

/// Forgets what the view's frames have of a page.
pub(crate) fn spoil_page(view: &mut ActorView, page: u32)
    ensures { view.new ≡ record view.old { owned = spoiled page view.old.owned } }
{
    spoil(&mut view.owned, page);
}

/// Forgets what the view's frames have of the backing page of a virtual page.
pub(crate) fn spoil_of(g: &Geometry, view: &mut ActorView, vpage: u32)
    ensures { view.new ≡ record view.old { owned = spoiled_under (backing_page g.now vpage) view.old.owned } }
{
    if let Some(page) = g.backing(vpage) {
        spoil_page(view, page);
    }
}

/// Owns a frame with this fill.
pub(crate) fn own(view: &mut ActorView, frame: u32, fill: Fill)
    requires { length (owning frame fill view.old.owned) ≤ view.old.room.frames }
    ensures { view.new ≡ record view.old { owned = owning frame fill view.old.owned } }
{
    put(&mut view.owned, Owned { frame, fill });
}

/// Owns a frame no more.
pub(crate) fn disown(view: &mut ActorView, frame: u32)
    ensures { view.new ≡ record view.old { owned = erase owned_frame frame view.old.owned } }
{
    erase(&mut view.owned, frame);
}

/// Notes the fill of a frame, among owned frames.
fn refill_in(owned: &mut [Owned], frame: u32, fill: Fill)
    ensures { owned.new ≡ edit owned_frame frame (filled fill) owned.old }
{
    if let Some(i) = place(owned, frame) {
        owned[i] = Owned {
            frame: owned[i].frame,
            fill,
        };
    }
}

/// Notes the fill of an owned frame.
pub(crate) fn refill(view: &mut ActorView, frame: u32, fill: Fill)
    ensures { view.new ≡ record view.old { owned = edit owned_frame frame (filled fill) view.old.owned } }
{
    refill_in(&mut view.owned, frame, fill);
}

/// Whether the stamp of a cached translation equals a fresh peek.
fn is_confirmed(peeked: &[Peeked], entry: CacheEntry) -> bool
    ensures { result ≡ is_confirmed peeked.now entry }
{
    match look_up(peeked, entry.vpage) {
        Some(peek) => peek.fresh && peek.stamp == entry.stamp,
        None => false,
    }
}

/// Keeps the cached translations whose stamps equal fresh peeks.
fn keep_confirmed(cache: &mut Vec<CacheEntry>, peeked: &[Peeked])
    ensures items { cache.new.items ≡ filter (is_confirmed peeked.now) cache.old.items }
    ensures capacity { vec_capacity cache.new ≡ vec_capacity cache.old }
{
    cache.retain(|entry| is_confirmed(peeked, *entry));
}

/// Keeps the cached translations of a view whose stamps equal fresh peeks.
pub(crate) fn keep_cache(view: &mut ActorView)
    ensures { view.new ≡ record view.old { cache = filter (is_confirmed view.old.peeked) view.old.cache } }
{
    keep_confirmed(&mut view.cache, &view.peeked);
}

/// Makes every peek stale.
fn make_stale(peeked: &mut [Peeked])
    ensures { peeked.new ≡ map stale peeked.old }
{
    for i in 0..peeked.len() {
        peeked[i].fresh = false;
    }
}

/// Makes every peek of a view stale.
pub(crate) fn stale_peeks(view: &mut ActorView)
    ensures { view.new ≡ record view.old { peeked = map stale view.old.peeked } }
{
    make_stale(&mut view.peeked);
}

/// Whether an operation is in phase Taken, with no dirty bit cleared, and its flush ended.
pub(crate) fn is_quiet(g: &Geometry, op: &OpenOp) -> bool
    ensures { result ≡ is_quiet g.now op.now }
{
    match op.phase {
        Phase::Held => false,
        Phase::Cleared => false,
        Phase::Taken => !op.cleared && op.flush_ended(g),
    }
}

/// What was scanned, after a word whose bit 0 stands for the frame `base`.
pub fn scanned_word(base: u32, word: u64, scan: Scanned) -> Scanned
    requires base { base + 64 < 2 ^ 32 }
    requires words { scan.words + 1 < 2 ^ 32 }
    requires sum { scan.sum + count_ones word < 2 ^ 32 }
    ensures { result ≡ scanned_word base word scan }
{
    Scanned {
        words: scan.words + 1,
        sum: scan.sum + word.count_ones(),
        least: least_with(scan.least, base, word),
    }
}

/// The least frame found so far.
fn least_with(least: Option<u32>, base: u32, word: u64) -> Option<u32>
    requires { base + 64 < 2 ^ 32 }
    ensures { result ≡ least_with least base word }
{
    match least {
        Some(frame) => Some(frame),
        None => least_frame(base, word),
    }
}
