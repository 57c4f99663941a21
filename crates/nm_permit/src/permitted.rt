//! Which actions a view permits.

ghost use Rattle.std.specs.Prelude.{◌≡◌, ◌≢◌, ◌↔◌, ◌⊎◌, ℕ, false, ◌+◌, ◌^◌, ◌<◌, ◌≤◌, ◌==◌, IsTrue, IsSome, IsSomeAnd, IfSome, Some, None, All, option_map};
ghost use Rattle.std.specs.Option.{option_copied};
ghost use Rattle.std.specs.Int.{bit_at};
ghost use Rattle.nm_base.specs.Geometry.{backing_page, IsWritable};
ghost use Rattle.nm_base.specs.PageWord.{IsPresentWord, is_present, has_hint, is_writable, is_dirty, is_saved, frame_of};
ghost use Rattle.nm_view.specs.Lists.{find, first, itself};
ghost use Rattle.nm_base.specs.FreeWords.{free_words};
ghost use Rattle.nm_base.specs.HomeWord.{home_word};
ghost use Rattle.nm_view.specs.Operations.{op_on, op_of, page_of, fill_of, is_answered, are_seen, is_flush_ended, IsFlushEnded, IsTaken, IsLookedMapped, IsLookedAbsent, IsLookedOver, IsAllTaken, IsTakenOnly, IsUnmapped, IsInLastTier, IsProcessor};
ghost use Rattle.nm_base.specs.Ranges.{IsVPage, IsFrame};
ghost use Rattle.nm_permit.specs.Permitted.{Allowed, InRange, Permitted, MayWalk, IsPolledFor, MayLock, MayUnlock, MayBump, AreDueDry, IsWet, MayClear, IsTakingPhase, MayUnmap, IsWordBack, IsVacant, IsTakenMoved, IsWordNew, HasMappedWord, MayMap, MayGrant, IsSavedWord, IsCopyingPhase, IsUnmappedUnmoved, MayCopyLoad, IsZeroedTo, IsCopiedTo, IsLoaded, MayZero, MayCopy, IsTakenClean, IsFreeOfShadow, IsHomeDemanded, IsHomeCommitted, IsHomeMoved, HasNewHome, MaySetHome, IsWhole, MayShade, MayUnshade, MaySetShadow, MayScan, MayGive, MayPut, IsMarkStep, IsMarkDone, MayRead, IsCell, IsCachedDirty};

use nm_action::{AckTo, Action, Cell};
use nm_base::home_word::home_word;
use nm_base::table_word::{frame_of, has_hint, is_dirty, is_present, is_saved, is_writable};
use nm_base::{Geometry, PageWord};
use nm_view::keyed::{is_among, look_up};
use nm_view::{ActorView, END, Fill, MOST_OPS, OFF, OWN_BUMPS, OpenOp, Phase};

/// Whether two phases are the same.
fn is_phase(one: Phase, other: Phase) -> bool
    ensures { IsTrue result ↔ (one ≡ other) }
{
    one == other
}

/// Whether a virtual page was looked at as not 0, and was not taken.
pub(crate) fn is_looked_mapped(op: &OpenOp, vpage: u32) -> bool
    ensures { IsTrue result ↔ IsLookedMapped op.now.looked op.now.taken vpage }
{
    if is_among(&op.taken, vpage) {
        return false;
    }
    match look_up(&op.looked, vpage) {
        Some((_, word)) => word != 0,
        None => false,
    }
}

/// Whether a virtual page was looked at as 0, and was not taken.
fn is_looked_absent(op: &OpenOp, vpage: u32) -> bool
    ensures { IsTrue result ↔ IsLookedAbsent op.now.looked op.now.taken vpage }
{
    if is_among(&op.taken, vpage) {
        return false;
    }
    match look_up(&op.looked, vpage) {
        Some((_, word)) => word == 0,
        None => false,
    }
}

/// Whether every virtual page of the page was looked at.
#[tactic(auto, using(crate::proofs::Known::backing_past))]
fn is_looked_over(g: &Geometry, op: &OpenOp) -> bool
    ensures { IsTrue result ↔ IsLookedOver g.now op.now.page op.now.looked }
{
    for vpage in 0..g.vpages.len() as u32 {
        if g.backing(vpage) == Some(op.page) && !is_among(&op.looked, vpage) {
            return false;
        }
    }
    true
}

/// Whether every word that was looked at as not 0 was taken.
fn is_all_taken(op: &OpenOp) -> bool
    ensures { IsTrue result ↔ IsAllTaken op.now.looked op.now.taken }
{
    for (vpage, word) in &op.looked {
        if *word != 0 && !is_among(&op.taken, *vpage) {
            return false;
        }
    }
    true
}

/// Whether the phase is Taken, and no dirty bit was cleared.
fn is_taken_only(op: &OpenOp) -> bool
    ensures { IsTrue result ↔ IsTakenOnly op.now.phase op.now.cleared }
{
    is_phase(op.phase, Phase::Taken) && !op.cleared
}

/// Whether the page is out of the table.
fn is_unmapped(g: &Geometry, op: &OpenOp) -> bool
    ensures { IsTrue result ↔ IsUnmapped g.now op.now }
{
    is_taken_only(op) && is_all_taken(op) && op.flush_ended(g) && is_looked_over(g, op)
}

/// Whether a Walk is permitted.
pub(crate) fn may_walk(g: &Geometry, view: &ActorView, vpage: u32, expect: u64, write: bool) -> bool
    ensures { IsTrue result ↔ MayWalk g.now view.now vpage expect write }
{
    if view.number >= g.cpus || view.acked == OFF || view.acked == END {
        return false;
    }
    if !is_present(expect) || has_hint(expect) {
        return false;
    }
    if write && !is_writable(expect) {
        return false;
    }
    is_among(&view.peeked, vpage)
}

/// Whether stores may go through a cached translation of a virtual page.
pub(crate) fn is_cached_dirty(view: &ActorView, vpage: u32) -> bool
    ensures { IsTrue result ↔ IsCachedDirty view.now vpage }
{
    match look_up(&view.cache, vpage) {
        Some(entry) => entry.dirty,
        None => false,
    }
}

/// Whether what an acknowledgement says was polled.
pub(crate) fn is_polled_for(view: &ActorView, to: AckTo) -> bool
    ensures { IsTrue result ↔ IsPolledFor view.now to }
{
    match to {
        AckTo::Seen => view.req_seen != OFF,
        AckTo::Off => true,
        AckTo::End => true,
    }
}

/// Whether a Lock is permitted.
pub(crate) fn may_lock(view: &ActorView, page: u32) -> bool
    ensures { IsTrue result ↔ MayLock view.now page }
{
    if view.ops.len() >= MOST_OPS {
        return false;
    }
    match view.op_on(page) {
        Some(_) => false,
        None => true,
    }
}

/// Whether an Unlock is permitted.
pub(crate) fn may_unlock(g: &Geometry, op: &OpenOp) -> bool
    ensures { IsTrue result ↔ MayUnlock g.now op.now }
{
    op.taken.is_empty() && op.flush_ended(g) && !is_phase(op.phase, Phase::Cleared)
}

/// Whether no due operation has a wet page.
fn are_due_dry(ops: &[OpenOp]) -> bool
    ensures { IsTrue result ↔ AreDueDry ops.now }
{
    for op in ops {
        if op.due && !op.wet.is_empty() {
            return false;
        }
    }
    true
}

/// Whether a Bump is permitted.
pub(crate) fn may_bump(view: &ActorView) -> bool
    ensures { IsTrue result ↔ MayBump view.now }
{
    view.bumps < OWN_BUMPS && are_due_dry(&view.ops)
}

/// Whether no other virtual page was looked at as not 0.
fn is_alone(looked: &[(u32, u64)], vpage: u32) -> bool
    ensures { IsTrue result ↔ All (λ p. (p.1 ≡ 0) ⊎ (p.0 ≡ vpage)) looked.now }
{
    looked.iter().all(|entry| entry.1 == 0 || entry.0 == vpage)
}

/// Whether a virtual page was looked at as not 0.
fn is_mapped(op: &OpenOp, vpage: u32) -> bool
    ensures { IsTrue result ↔ IsSomeAnd (find first vpage op.now.looked) (λ p. p.1 ≢ 0) }
{
    match look_up(&op.looked, vpage) {
        Some((_, word)) => word != 0,
        None => false,
    }
}

/// Whether a ClearDirty is permitted.
pub(crate) fn may_clear(g: &Geometry, op: &OpenOp, vpage: u32) -> bool
    ensures { IsTrue result ↔ MayClear g.now vpage op.now }
{
    is_phase(op.phase, Phase::Held)
        && is_mapped(op, vpage)
        && is_alone(&op.looked, vpage)
        && is_looked_over(g, op)
}

/// Whether a word may be taken in this phase.
fn is_taking_phase(g: &Geometry, op: &OpenOp) -> bool
    ensures { IsTrue result ↔ IsTakingPhase g.now op.now op.now.phase }
{
    match op.phase {
        Phase::Held => true,
        Phase::Cleared => op.flush_ended(g),
        Phase::Taken => !op.cleared,
    }
}

/// Whether an Unmap is permitted.
pub(crate) fn may_unmap(g: &Geometry, op: &OpenOp, vpage: u32) -> bool
    ensures { IsTrue result ↔ MayUnmap g.now vpage op.now }
{
    is_looked_mapped(op, vpage) && !op.moved && is_taking_phase(g, op)
}

/// Whether a word is the taken word of a virtual page, and may go back.
fn is_word_back(op: &OpenOp, vpage: u32, word: u64) -> bool
    ensures { IsTrue result ↔ IsWordBack vpage word op.now }
{
    if op.moved || !is_phase(op.phase, Phase::Taken) {
        return false;
    }
    match look_up(&op.taken, vpage) {
        Some((_, taken)) => taken == word,
        None => false,
    }
}

/// Whether a virtual page has no word now.
fn is_vacant(op: &OpenOp, vpage: u32) -> bool
    ensures { IsTrue result ↔ IsVacant vpage op.now }
{
    if is_among(&op.taken, vpage) && op.moved {
        return true;
    }
    is_looked_absent(op, vpage)
}

/// Whether a word is a page word that maps a frame.
fn is_present_word(word: u64) -> bool
    ensures { IsTrue result ↔ IsPresentWord word }
{
    match PageWord::of_word(word) {
        Some(PageWord::Present { .. }) => true,
        Some(PageWord::Absent) => false,
        None => false,
    }
}

/// Whether the known home is the frame of a word.
fn is_home_of(op: &OpenOp, word: u64) -> bool
    ensures { IsTrue result ↔ (op.now.home ≡ Some (home_word (frame_of word))) }
{
    op.home == Some(home_word(frame_of(word)))
}

/// Whether the shadow of the home is known as none.
fn is_unshadowed(op: &OpenOp) -> bool
    ensures { IsTrue result ↔ (op.now.shadow ≡ Some 0) }
{
    op.shadow == Some(0)
}

/// Whether a word is a new one for a virtual page.
fn is_word_new(g: &Geometry, op: &OpenOp, vpage: u32, word: u64) -> bool
    ensures { IsTrue result ↔ IsWordNew g.now vpage word op.now }
{
    if !is_present_word(word) || !is_home_of(op, word) || !is_vacant(op, vpage) {
        return false;
    }
    if is_writable(word) && !(g.may_be_written(vpage) && is_unshadowed(op)) {
        return false;
    }
    if is_saved(word) && !g.may_be_written(vpage) {
        return false;
    }
    !is_dirty(word) || is_among(&op.taken, vpage)
}

/// Whether a mapped word fits.
fn has_mapped_word(g: &Geometry, op: &OpenOp, vpage: u32, word: u64) -> bool
    ensures { IsTrue result ↔ HasMappedWord g.now vpage word op.now }
{
    is_word_back(op, vpage, word) || is_word_new(g, op, vpage, word)
}

/// Whether a Map is permitted.
pub(crate) fn may_map(g: &Geometry, op: &OpenOp, vpage: u32, word: u64) -> bool
    ensures { IsTrue result ↔ MayMap g.now vpage word op.now }
{
    if is_phase(op.phase, Phase::Cleared) || !op.flush_ended(g) {
        return false;
    }
    if op.cleared && !op.moved && !(is_word_back(op, vpage, word) && is_dirty(word)) {
        return false;
    }
    has_mapped_word(g, op, vpage, word)
}

/// Whether a word has the saved right to write, and not the right to write.
fn is_saved_word(word: u64) -> bool
    ensures { IsTrue result ↔ IsSavedWord word }
{
    is_saved(word) && !is_writable(word)
}

/// Whether a virtual page was looked at with the saved right to write, and without the right to write.
fn is_looked_saved(op: &OpenOp, vpage: u32) -> bool
    ensures { IsTrue result ↔ IsSomeAnd (find first vpage op.now.looked) (λ p. IsSavedWord p.1) }
{
    match look_up(&op.looked, vpage) {
        Some((_, word)) => is_saved_word(word),
        None => false,
    }
}

/// Whether a Grant is permitted.
pub(crate) fn may_grant(op: &OpenOp, vpage: u32) -> bool
    ensures { IsTrue result ↔ MayGrant vpage op.now }
{
    if is_among(&op.taken, vpage) {
        return false;
    }
    is_unshadowed(op) && is_looked_saved(op, vpage)
}

/// Whether words may be copied in this phase.
fn is_copying_phase(g: &Geometry, op: &OpenOp) -> bool
    ensures { IsTrue result ↔ IsCopyingPhase g.now op.now op.now.phase }
{
    match op.phase {
        Phase::Held => false,
        Phase::Cleared => true,
        Phase::Taken => !op.moved && is_unmapped(g, op),
    }
}

/// Whether a home is known that is not none.
fn has_home(op: &OpenOp) -> bool
    ensures { IsTrue result ↔ IsSomeAnd op.now.home (λ h. h ≢ 0) }
{
    match op.home {
        Some(home) => home != 0,
        None => false,
    }
}

/// Whether a CopyLoad is permitted.
pub(crate) fn may_copy_load(g: &Geometry, op: &OpenOp, index: u32) -> bool
    ensures { IsTrue result ↔ MayCopyLoad g.now index op.now }
{
    has_home(op) && index == op.copied && op.flush_ended(g) && is_copying_phase(g, op)
}

/// Whether so many first words of a frame are 0, and no more is known of it.
fn is_zeroed_to(fill: Fill, count: u32) -> bool
    ensures { IsTrue result ↔ IsZeroedTo count fill }
{
    match fill {
        Fill::Raw => count == 0,
        Fill::Zeroed(zeroed) => count == zeroed,
        Fill::Copied(_, _) => false,
        Fill::Equal(_) => false,
    }
}

/// Whether so many first words of a frame are copied of a page, and no more is known of it.
fn is_copied_to(fill: Fill, page: u32, count: u32) -> bool
    ensures { IsTrue result ↔ IsCopiedTo page count fill }
{
    match fill {
        Fill::Raw => count == 0,
        Fill::Zeroed(_) => false,
        Fill::Copied(of, copied) => of == page && count == copied,
        Fill::Equal(_) => false,
    }
}

/// Whether an operation has just loaded this word at this index.
fn is_loaded(op: &OpenOp, index: u32, value: u64) -> bool
    ensures { IsTrue result ↔ IsLoaded index value op.now }
{
    index == op.copied && op.last == Some(value)
}

/// Whether a 0 may be stored as the next word of a frame.
pub(crate) fn may_zero(view: &ActorView, frame: u32, index: u32, value: u64) -> bool
    ensures { IsTrue result ↔ MayZero view.now frame index value }
{
    match view.fill_of(frame) {
        Some(fill) => value == 0 && is_zeroed_to(fill, index),
        None => false,
    }
}

/// Whether a loaded word may be stored as the next word of a copy.
pub(crate) fn may_copy(view: &ActorView, page: u32, frame: u32, index: u32, value: u64) -> bool
    ensures { IsTrue result ↔ MayCopy view.now page frame index value }
{
    let Some(fill) = view.fill_of(frame) else {
        return false;
    };
    if !is_copied_to(fill, page, index) {
        return false;
    }
    match view.op_on(page) {
        Some(op) => is_loaded(op, index, value),
        None => false,
    }
}

/// Whether all taken words are clean.
fn is_clean(taken: &[(u32, u64)]) -> bool
    ensures { IsTrue result ↔ All (λ p. is_dirty p.1 ≡ false) taken.now }
{
    taken.iter().all(|entry| !is_dirty(entry.1))
}

/// Whether there is a taken word, and it is clean.
fn is_taken_clean(op: &OpenOp) -> bool
    ensures { IsTrue result ↔ IsTakenClean op.now.taken }
{
    !op.taken.is_empty() && is_clean(&op.taken)
}

/// Whether a home word names a frame of the slowest tier.
fn is_in_last_tier(g: &Geometry, home: u64) -> bool
    ensures { IsTrue result ↔ IsInLastTier g.now home }
{
    let last = g.first_frame(g.tiers.len() as u32 - 1);
    u64::from(last) < home && home <= u64::from(g.frames())
}

/// Whether no shadow has to be given up with the home.
fn is_free_of_shadow(g: &Geometry, op: &OpenOp) -> bool
    ensures { IsTrue result ↔ IsFreeOfShadow g.now op.now }
{
    if is_unshadowed(op) {
        return true;
    }
    match op.home {
        Some(home) => is_in_last_tier(g, home),
        None => false,
    }
}

/// Whether two fills are the same.
fn is_fill(one: Fill, other: Fill) -> bool
    ensures { IsTrue result ↔ (one ≡ other) }
{
    one == other
}

/// Whether a page without a home may get one with this fill.
fn is_home_demanded(g: &Geometry, op: &OpenOp, fill: Fill) -> bool
    ensures { IsTrue result ↔ IsHomeDemanded g.now op.now fill }
{
    op.home == Some(0) && is_fill(fill, Fill::Zeroed(g.words))
}

/// Whether a transaction may commit to a frame with this fill.
fn is_home_committed(g: &Geometry, op: &OpenOp, fill: Fill) -> bool
    ensures { IsTrue result ↔ IsHomeCommitted g.now op.now fill }
{
    if !is_phase(op.phase, Phase::Taken) || !op.cleared || !is_taken_clean(op) {
        return false;
    }
    if !op.flush_ended(g) || !is_fill(fill, Fill::Copied(op.page, g.words)) {
        return false;
    }
    is_free_of_shadow(g, op)
}

/// Whether a page that is out of the table may move to a frame with this fill.
fn is_home_moved(g: &Geometry, op: &OpenOp, fill: Fill) -> bool
    ensures { IsTrue result ↔ IsHomeMoved g.now op.now fill }
{
    is_unshadowed(op) && is_whole(g, op.page, fill) && is_unmapped(g, op)
}

/// Whether a whole page stands in a frame with this fill.
fn is_whole(g: &Geometry, page: u32, fill: Fill) -> bool
    ensures { IsTrue result ↔ IsWhole g.now page fill }
{
    is_fill(fill, Fill::Copied(page, g.words)) || is_fill(fill, Fill::Equal(page))
}

/// Whether a SetHome is permitted, to a frame that has this fill, or that the view doesn't own.
pub(crate) fn may_set_home(g: &Geometry, op: &OpenOp, fill: Option<Fill>) -> bool
    ensures { IsTrue result ↔ MaySetHome g.now fill op.now }
{
    match fill {
        Some(fill) => has_new_home(g, op, fill),
        None => false,
    }
}

/// Whether a new home fits.
fn has_new_home(g: &Geometry, op: &OpenOp, fill: Fill) -> bool
    ensures { IsTrue result ↔ HasNewHome g.now fill op.now }
{
    is_home_demanded(g, op, fill) || is_home_committed(g, op, fill) || is_home_moved(g, op, fill)
}

/// Whether a frame is the known home.
fn is_home(op: &OpenOp, frame: u32) -> bool
    ensures { IsTrue result ↔ (op.now.home ≡ Some (home_word frame)) }
{
    op.home == Some(home_word(frame))
}

/// Whether the home may be given a shadow.
fn may_shade(g: &Geometry, view: &ActorView, op: &OpenOp, master: u32, shadow: u32) -> bool
    requires frames { IsFrame g.now master × IsFrame g.now shadow }
    ensures { IsTrue result ↔ MayShade g.now view.now master shadow op.now }
{
    if !is_home(op, master) || !op.moved || !op.cleared || !is_unshadowed(op) {
        return false;
    }
    if g.tier_of(master) >= g.tier_of(shadow) {
        return false;
    }
    view.fill_of(shadow) == Some(Fill::Equal(op.page))
}

/// Whether the home's shadow may be taken away.
fn may_unshade(op: &OpenOp, master: u32) -> bool
    ensures { IsTrue result ↔ MayUnshade master op.now }
{
    if !is_home(op, master) {
        return false;
    }
    match op.shadow {
        Some(word) => word != 0,
        None => false,
    }
}

/// Whether a SetShadow is permitted.
pub(crate) fn may_set_shadow(
    g: &Geometry,
    view: &ActorView,
    op: &OpenOp,
    master: u32,
    shadow: Option<u32>,
) -> bool
    requires frames { IsFrame g.now master × IfSome shadow (IsFrame g.now) }
    ensures { IsTrue result ↔ MaySetShadow g.now view.now master shadow op.now }
{
    match shadow {
        Some(shadow) => may_shade(g, view, op, master, shadow),
        None => may_unshade(op, master),
    }
}

/// Whether a view has the turn of a tier.
pub(crate) fn has_turn(view: &ActorView, tier: u32) -> bool
    ensures { IsTrue result ↔ (view.now.turn ≡ Some tier) }
{
    view.turn == Some(tier)
}

/// Whether a Scan is permitted.
pub(crate) fn may_scan(view: &ActorView, tier: u32, index: u32) -> bool
    ensures { IsTrue result ↔ MayScan view.now tier index }
{
    has_turn(view, tier) && index == view.scan.words
}

/// Whether a GiveFrame is permitted.
pub(crate) fn may_give(g: &Geometry, view: &ActorView, frame: u32) -> bool
    ensures { IsTrue result ↔ MayGive g.now view.now frame }
{
    match view.turn {
        Some(tier) => view.scan.words == g.free_words(tier) && view.scan.least == Some(frame),
        None => false,
    }
}

/// Whether a PutFrame is permitted.
pub(crate) fn may_put(g: &Geometry, view: &ActorView, frame: u32) -> bool
    requires { IsFrame g.now frame }
    ensures { IsTrue result ↔ MayPut g.now view.now frame }
{
    has_turn(view, g.tier_of(frame)) && is_among(&view.owned, frame)
}

/// Whether a mark steps from none to candidate, back, or on to pending.
pub(crate) fn is_mark_step(old: u64, new: u64) -> bool
    ensures { IsTrue result ↔ IsMarkStep old new }
{
    (old == 0 && new == 1) || (old == 1 && new == 0) || (old == 1 && new == 2)
}

/// Whether a mark steps from pending to none, inside an operation on the page.
pub(crate) fn is_mark_done(view: &ActorView, page: u32, old: u64, new: u64) -> bool
    ensures { IsTrue result ↔ IsMarkDone view.now page old new }
{
    if old != 2 || new != 0 {
        return false;
    }
    match view.op_on(page) {
        Some(_) => true,
        None => false,
    }
}

/// Whether an operation may read a word.
pub(crate) fn may_read(op: &OpenOp, cell: Cell) -> bool
    ensures { IsTrue result ↔ MayRead cell op.now }
{
    match cell {
        Cell::Home(_) => true,
        Cell::Shadow(frame) => is_home(op, frame),
    }
}
