//! How a step changes the view of its actor.

ghost use Rattle.std.specs.Prelude.{◌≡◌, ◌+◌, ◌*◌, ◌<◌, ◌≤◌, ◌^◌, ◌∷◌, ◌++◌, Some, None, true, [], All, IfSome, IsTrue, map, length, count_ones, option_map};
ghost use Rattle.nm_base.specs.Geometry.{backing_page};
ghost use Rattle.nm_view.specs.Lists.{edit, erase, put};
ghost use Rattle.nm_view.specs.Opening.{unscanned};
ghost use Rattle.nm_view.specs.Operations.{page_of, cached_page, peeked_page, owned_frame, op_on, known_home};
ghost use Rattle.nm_permit.specs.Permitted.{Allowed, IsFreeWordAt};
ghost use Rattle.nm_base.specs.FreeWords.{free_base};
ghost use Rattle.nm_view.specs.Views.{own_bumps, own_raises};
ghost use Rattle.nm_event.specs.Changes.{op_changed};
ghost use Rattle.nm_step.specs.Table.{acked_word};
ghost use Rattle.nm_event.specs.After.{after_of, walked, kept_entries, edit_of, edit_under, let_go, shading, unshaded, unshaded_fill, unshading, is_quiet, mapped_at, granted_at, copied_one, homed_at, shaded, stored_fill, filled, spoiled, spoiled_under, stale, owning, bumped_to, raised_to, scanned_word};
ghost use Rattle.nm_event.specs.Room.{HasRoom, IsOpWithin};

use crate::change::{OpChange, bump_all, see_all};
use crate::frames::{
    change_op, change_op_of, disown, is_quiet, keep_cache, own, refill, scanned_word, spoil_of,
    spoil_page, stale_peeks,
};
use nm_action::{AckTo, Action, Reply};
use nm_base::Geometry;
use nm_base::shadow_word::shadow_frame;
use nm_base::table_word::{frame_of, is_dirty, is_writable};
use nm_view::keyed::{look_up, put};
use nm_view::{ActorView, CacheEntry, END, Fill, OFF, Peeked, UNSCANNED};

/// What a walk caches.
fn walked(view: &ActorView, vpage: u32, expect: u64, write: bool) -> CacheEntry
    ensures { result ≡ walked view.now vpage expect write }
{
    let stamp = match look_up(&view.peeked, vpage) {
        Some(peek) => peek.stamp,
        None => 0,
    };
    CacheEntry {
        vpage,
        frame: frame_of(expect),
        dirty: is_writable(expect) && (write || is_dirty(expect)),
        stamp,
    }
}

/// Caches what a walk leads to.
fn cache_walk(view: &mut ActorView, vpage: u32, expect: u64, write: bool)
    requires { length (put cached_page (walked view.old vpage expect write) view.old.cache) ≤ view.old.room.vpages }
    ensures { view.new ≡ record view.old { cache = put cached_page (walked view.old vpage expect write) view.old.cache } }
{
    let entry = walked(view, vpage, expect, write);
    put(&mut view.cache, entry);
}

/// Notes a peek.
fn note_peek(view: &mut ActorView, vpage: u32, stamp: u64)
    requires { length (put peeked_page (record { vpage = vpage; stamp = stamp; fresh = true }) view.old.peeked) ≤ view.old.room.vpages }
    ensures { view.new ≡ record view.old { peeked = put peeked_page (record { vpage = vpage; stamp = stamp; fresh = true }) view.old.peeked } }
{
    let peek = Peeked {
        vpage,
        stamp,
        fresh: true,
    };
    put(&mut view.peeked, peek);
}

/// Notes a poll.
fn note_poll(view: &mut ActorView, bumps: u64)
    ensures { view.new ≡ record view.old { req_seen = bumps; peeked = map stale view.old.peeked } }
{
    view.req_seen = bumps;
    stale_peeks(view);
}

/// Notes a bump, whose number before it was `old`.
fn note_bump(view: &mut ActorView, old: u64)
    requires bumps { view.old.bumps < own_bumps }
    requires due { All (λ o. IsTrue o.due → old + 1 < 2 ^ 64) view.old.ops }
    ensures { view.new ≡ record view.old { bumps = view.old.bumps + 1; ops = map (bumped_to (old + 1)) view.old.ops } }
{
    view.bumps += 1;
    bump_all(&mut view.ops, old);
}

/// Notes a raise, whose number before it was `old`.
fn note_raise(g: &Geometry, view: &mut ActorView, vpage: u32, old: u64)
    requires raises { view.old.raises < own_raises }
    requires number { old + 1 < 2 ^ 64 }
    requires ops { All (IsOpWithin view.old.room.aliases) (edit_of g.now vpage (raised_to vpage (old + 1)) view.old.ops) }
    ensures { view.new ≡ record view.old { raises = view.old.raises + 1; ops = edit_of g.now vpage (raised_to vpage (old + 1)) view.old.ops } }
{
    change_op_of(g, view, vpage, OpChange::RaisedTo(vpage, old + 1));
    view.raises += 1;
}

/// Notes a word of a tier's free frames.
fn note_scan(g: &Geometry, view: &mut ActorView, tier: u32, index: u32, word: u64)
    requires place { IsFreeWordAt g.now tier index }
    requires next { index ≡ view.old.scan.words }
    requires sum { view.old.scan.sum + count_ones word < 2 ^ 32 }
    ensures { view.new ≡ record view.old { scan = scanned_word (free_base g.now tier index) word view.old.scan } }
{
    let base = g.free_base(tier, index);
    view.scan = scanned_word(base, word, view.scan);
}

/// Takes a turn, or releases it. Nothing is scanned then.
fn set_turn(view: &mut ActorView, turn: Option<u32>)
    ensures { view.new ≡ record view.old { turn = turn; scan = unscanned } }
{
    view.turn = turn;
    view.scan = UNSCANNED;
}

/// Owns a frame that was free. Nothing is scanned then.
fn take_frame(view: &mut ActorView, frame: u32)
    requires { length (owning frame Fill.Raw view.old.owned) ≤ view.old.room.frames }
    ensures { view.new ≡ record view.old { owned = owning frame Fill.Raw view.old.owned; scan = unscanned } }
{
    own(view, frame, Fill::Raw);
    view.scan = UNSCANNED;
}

/// Closes the operation on a page, and forgets what the frames have of the page.
fn close(view: &mut ActorView, page: u32)
    requires { All (λ o. o.room ≡ view.old.room.aliases) view.old.ops }
    ensures { view.new ≡ record view.old { ops = erase page_of page view.old.ops; owned = spoiled page view.old.owned } }
{
    view.close_op(page);
    spoil_page(view, page);
}

/// Changes the operation on the backing page of a virtual page, and forgets what the frames have of the page.
fn change_word(g: &Geometry, view: &mut ActorView, vpage: u32, change: OpChange)
    requires { All (IsOpWithin view.old.room.aliases) (edit_of g.now vpage (op_changed change) view.old.ops) }
    ensures { view.new ≡ record view.old { ops = edit_of g.now vpage (op_changed change) view.old.ops; owned = spoiled_under (backing_page g.now vpage) view.old.owned } }
{
    change_op_of(g, view, vpage, change);
    spoil_of(g, view, vpage);
}

/// Notes an acknowledgement, and drops what it does not keep of the cache.
fn acknowledge(view: &mut ActorView, to: AckTo)
    ensures { view.new ≡ record view.old { acked = acked_word view.old to; cache = kept_entries view.old to } }
{
    match to {
        AckTo::Seen => {
            view.acked = view.req_seen;
            keep_cache(view);
        }
        AckTo::Off => {
            view.acked = OFF;
            view.cache.clear();
        }
        AckTo::End => {
            view.acked = END;
            view.cache.clear();
        }
    }
}

/// Owns the old home of a page, if there is one.
fn let_go(view: &mut ActorView, page: u32, home: Option<u64>)
    requires room { length (let_go page home view.old.owned) ≤ view.old.room.frames }
    requires frame { IfSome home (λ h. h ≤ 2 ^ 32) }
    ensures { view.new ≡ record view.old { owned = let_go page home view.old.owned } }
{
    if let Some(home) = home {
        if home != 0 {
            own(view, (home - 1) as u32, Fill::Equal(page));
        }
    }
}

/// Notes a new home, and owns the old one in place of the new.
fn set_home(view: &mut ActorView, page: u32, frame: u32)
    requires ops { All (IsOpWithin view.old.room.aliases) (edit page_of page (homed_at frame) view.old.ops) }
    requires owned { length (let_go page (known_home (op_on view.old page)) (erase owned_frame frame view.old.owned)) ≤ view.old.room.frames }
    requires home { IfSome (known_home (op_on view.old page)) (λ h. h ≤ 2 ^ 32) }
    ensures { view.new ≡ record view.old { ops = edit page_of page (homed_at frame) view.old.ops; owned = let_go page (known_home (op_on view.old page)) (erase owned_frame frame view.old.owned) } }
{
    let home = view.known_home(page);
    change_op(view, page, OpChange::HomedAt(frame));
    disown(view, frame);
    let_go(view, page, home);
}

/// The fill that the shadow of a page gets where it is taken away, and the shadow word that is known.
fn unshaded_as(g: &Geometry, view: &ActorView, page: u32) -> Option<(Fill, Option<u64>)>
    ensures { result ≡ option_map (λ o. (unshaded_fill (is_quiet g.now o) page, o.shadow)) (op_on view.now page) }
{
    match view.op_on(page) {
        Some(op) => {
            let fill = if is_quiet(g, op) {
                Fill::Equal(page)
            } else {
                Fill::Raw
            };
            Some((fill, op.shadow))
        }
        None => None,
    }
}

/// Owns the shadow that the operation on a page knows.
fn unshade(g: &Geometry, view: &mut ActorView, page: u32)
    requires { length (unshaded g.now page (op_on view.old page) view.old.owned) ≤ view.old.room.frames }
    ensures { view.new ≡ record view.old { owned = unshaded g.now page (op_on view.old page) view.old.owned } }
{
    let Some((fill, Some(word))) = unshaded_as(g, view, page) else {
        return;
    };
    own(view, shadow_frame(word), fill);
}

/// Notes a shadow that is given, which is owned no more, or taken away, which is owned.
fn set_shadow(g: &Geometry, view: &mut ActorView, page: u32, shadow: Option<u32>)
    requires ops { All (IsOpWithin view.old.room.aliases) (edit page_of page (shaded page shadow) view.old.ops) }
    requires owned { length (shading g.now page (op_on view.old page) shadow view.old.owned) ≤ view.old.room.frames }
    ensures { view.new ≡ record view.old { ops = edit page_of page (shaded page shadow) view.old.ops; owned = shading g.now page (op_on view.old page) shadow view.old.owned } }
{
    match shadow {
        Some(frame) => disown(view, frame),
        None => unshade(g, view, page),
    }
    change_op(view, page, OpChange::Shaded(page, shadow));
}

/// Notes a word that was stored into an owned frame: a 0, or one that was copied of a page.
fn store_copy(view: &mut ActorView, page: Option<u32>, frame: u32, index: u32)
    requires ops { All (IsOpWithin view.old.room.aliases) (edit_under page copied_one view.old.ops) }
    requires index { index + 1 < 2 ^ 32 }
    ensures { view.new ≡ record view.old { ops = edit_under page copied_one view.old.ops; owned = edit owned_frame frame (filled (stored_fill page (index + 1))) view.old.owned } }
{
    match page {
        Some(page) => {
            change_op(view, page, OpChange::CopiedOne);
            refill(view, frame, Fill::Copied(page, index + 1));
        }
        None => refill(view, frame, Fill::Zeroed(index + 1)),
    }
}

/// After an action that was done. One that never is done changes nothing.
fn after_done(g: &Geometry, view: &mut ActorView, action: Action)
    requires allowed { Allowed g.now view.old action }
    requires room { HasRoom g.now view.old action Reply.Done }
    ensures { view.new ≡ after_of g.now view.old action Reply.Done }
{
    // What a geometry keeps bounds the numbers of an action that is in range.
    prove!(g.cpus <= 16);
    match action {
        Action::Walk {
            vpage,
            expect,
            write,
        } => cache_walk(view, vpage, expect, write),
        Action::Ack { to } => acknowledge(view, to),
        Action::Lock { page } => view.open_op(page),
        Action::Unlock { page } => close(view, page),
        Action::Map { vpage, word } => change_word(g, view, vpage, OpChange::MappedAt(vpage, word)),
        Action::CopyStore {
            page,
            frame,
            index,
            ..
        } => store_copy(view, page, frame, index),
        Action::SetHome { page, frame } => set_home(view, page, frame),
        Action::SetShadow { page, shadow, .. } => set_shadow(g, view, page, shadow),
        Action::TakeTurn { tier } => set_turn(view, Some(tier)),
        Action::ReleaseTurn { .. } => set_turn(view, None),
        _ => {}
    }
}

/// After an action that gave a word. One that never gives a word changes nothing.
fn after_word(g: &Geometry, view: &mut ActorView, action: Action, word: u64)
    requires allowed { Allowed g.now view.old action }
    requires room { HasRoom g.now view.old action (Reply.Word word) }
    ensures { view.new ≡ after_of g.now view.old action (Reply.Word word) }
{
    // What a geometry keeps bounds the numbers of an action that is in range.
    prove!(g.cpus <= 16);
    match action {
        Action::Look { vpage } => change_op_of(g, view, vpage, OpChange::LookedAt(vpage, word)),
        Action::Peek { vpage } => note_peek(view, vpage, word),
        Action::Poll => note_poll(view, word),
        Action::Bump => note_bump(view, word),
        Action::SeeAck { cpu } => see_all(&mut view.ops, cpu, word),
        Action::Raise { vpage } => note_raise(g, view, vpage, word),
        Action::ClearDirty { vpage } => change_op_of(g, view, vpage, OpChange::ClearedAt(vpage)),
        Action::Unmap { vpage } => change_op_of(g, view, vpage, OpChange::TakenAt(vpage, word)),
        Action::Grant { vpage } => change_word(g, view, vpage, OpChange::GrantedAt(vpage, word)),
        Action::CopyLoad { page, .. } => change_op(view, page, OpChange::Loaded(word)),
        Action::Scan { tier, index } => note_scan(g, view, tier, index, word),
        Action::GiveFrame { frame } => take_frame(view, frame),
        Action::PutFrame { frame } => disown(view, frame),
        Action::Read { page, cell } => change_op(view, page, OpChange::ReadCell(cell, word)),
        _ => {}
    }
}

/// Changes the view of an actor as its action and the reply say. It takes no memory.
pub fn after(g: &Geometry, view: &mut ActorView, action: Action, reply: Reply)
    requires allowed { Allowed g.now view.old action }
    requires room { HasRoom g.now view.old action reply }
    ensures { view.new ≡ after_of g.now view.old action reply }
{
    match reply {
        Reply::Done => after_done(g, view, action),
        Reply::Word(word) => after_word(g, view, action, word),
        Reply::Busy(_) | Reply::Lost(_) => {}
    }
}
