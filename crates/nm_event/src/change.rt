//! How an operation changes.

ghost use Rattle.std.specs.Prelude.{◌≡◌, ◌+◌, ◌<◌, ◌≤◌, ◌^◌, All, IsTrue, map};
ghost use Rattle.nm_view.specs.Views.{Op};
ghost use Rattle.nm_event.specs.After.{looked_at, read_cell, cleared_at, taken_at, raised_to, loaded, copied_one, homed_at, shaded, mapped_at, granted_at, bumped_to, seen_at};
ghost use Rattle.nm_event.specs.Changes.{op_changed};
ghost use Rattle.nm_event.specs.Room.{IsOpWithin};

use nm_action::Cell;
use nm_base::home_word::home_word;
use nm_base::shadow_word::shadow_word;
use nm_base::table_word::granted_word;
use nm_view::keyed::{erase, put};
use nm_view::{OpenOp, Phase};

/// A change of one operation.
#[derive(Clone, Copy)]
pub(crate) enum OpChange {
    /// A Look of this virtual page gave this word.
    LookedAt(u32, u64),
    /// A Read of this cell gave this word.
    ReadCell(Cell, u64),
    /// A ClearDirty of this virtual page.
    ClearedAt(u32),
    /// An Unmap of this virtual page took this word.
    TakenAt(u32, u64),
    /// A Raise of this virtual page to this number.
    RaisedTo(u32, u64),
    /// A CopyLoad gave this word.
    Loaded(u64),
    /// A CopyStore of the word that was loaded.
    CopiedOne,
    /// A SetHome to this frame.
    HomedAt(u32),
    /// A SetShadow of this page to this shadow.
    Shaded(u32, Option<u32>),
    /// A Map of this virtual page to this word.
    MappedAt(u32, u64),
    /// A Grant of this virtual page, whose word was this.
    GrantedAt(u32, u64),
}

/// Notes a word that was looked at.
fn look_at(op: &mut OpenOp, vpage: u32, word: u64)
    requires { IsOpWithin op.old.room (looked_at vpage word op.old) }
    ensures { op.new ≡ looked_at vpage word op.old }
{
    put(&mut op.looked, (vpage, word));
}

/// Notes a word that was read.
fn read_cell(op: &mut OpenOp, cell: Cell, word: u64)
    ensures { op.new ≡ read_cell cell word op.old }
{
    match cell {
        Cell::Home(_) => op.home = Some(word),
        Cell::Shadow(_) => op.shadow = Some(word),
    }
}

/// Notes that a dirty bit was cleared.
fn clear_at(op: &mut OpenOp, vpage: u32)
    requires { IsOpWithin op.old.room (cleared_at vpage op.old) }
    ensures { op.new ≡ cleared_at vpage op.old }
{
    op.phase = Phase::Cleared;
    op.cleared = true;
    op.due = true;
    op.flush = None;
    put(&mut op.wet, vpage);
    erase(&mut op.raised, vpage);
}

/// Notes that a word was taken.
fn take_at(op: &mut OpenOp, vpage: u32, word: u64)
    requires { IsOpWithin op.old.room (taken_at vpage word op.old) }
    ensures { op.new ≡ taken_at vpage word op.old }
{
    op.phase = Phase::Taken;
    op.due = true;
    op.flush = None;
    op.taken.push_reserved((vpage, word));
    put(&mut op.wet, vpage);
    erase(&mut op.raised, vpage);
}

/// Notes a raise.
fn raise_to(op: &mut OpenOp, vpage: u32, number: u64)
    requires { IsOpWithin op.old.room (raised_to vpage number op.old) }
    ensures { op.new ≡ raised_to vpage number op.old }
{
    erase(&mut op.wet, vpage);
    put(&mut op.raised, (vpage, number));
}

/// Notes a word that was loaded.
fn load(op: &mut OpenOp, word: u64)
    ensures { op.new ≡ loaded word op.old }
{
    op.last = Some(word);
}

/// Notes that the loaded word was stored.
fn copy_one(op: &mut OpenOp)
    requires { IsOpWithin op.old.room (copied_one op.old) }
    ensures { op.new ≡ copied_one op.old }
{
    op.copied += 1;
    op.last = None;
}

/// Notes a new home.
fn home_at(op: &mut OpenOp, frame: u32)
    ensures { op.new ≡ homed_at frame op.old }
{
    op.home = Some(home_word(frame));
    op.shadow = Some(0);
    op.moved = true;
}

/// Notes a shadow that was given or taken away.
fn shade(op: &mut OpenOp, page: u32, shadow: Option<u32>)
    requires { IsOpWithin op.old.room (shaded page shadow op.old) }
    ensures { op.new ≡ shaded page shadow op.old }
{
    op.shadow = Some(shadow_word(page, shadow));
}

/// Notes a word that was mapped.
fn map_at(op: &mut OpenOp, vpage: u32, word: u64)
    requires { IsOpWithin op.old.room (mapped_at vpage word op.old) }
    ensures { op.new ≡ mapped_at vpage word op.old }
{
    put(&mut op.looked, (vpage, word));
    erase(&mut op.taken, vpage);
    op.cleared = op.cleared && !op.taken.is_empty();
    op.last = None;
}

/// Notes that a right to write was granted.
fn grant_at(op: &mut OpenOp, vpage: u32, word: u64)
    requires { IsOpWithin op.old.room (granted_at vpage word op.old) }
    ensures { op.new ≡ granted_at vpage word op.old }
{
    put(&mut op.looked, (vpage, granted_word(word)));
    op.last = None;
}

/// Makes a change of an operation.
pub(crate) fn make_change(op: &mut OpenOp, change: OpChange)
    requires { IsOpWithin op.old.room (op_changed change op.old) }
    ensures { op.new ≡ op_changed change op.old }
{
    match change {
        OpChange::LookedAt(vpage, word) => look_at(op, vpage, word),
        OpChange::ReadCell(cell, word) => read_cell(op, cell, word),
        OpChange::ClearedAt(vpage) => clear_at(op, vpage),
        OpChange::TakenAt(vpage, word) => take_at(op, vpage, word),
        OpChange::RaisedTo(vpage, number) => raise_to(op, vpage, number),
        OpChange::Loaded(word) => load(op, word),
        OpChange::CopiedOne => copy_one(op),
        OpChange::HomedAt(frame) => home_at(op, frame),
        OpChange::Shaded(page, shadow) => shade(op, page, shadow),
        OpChange::MappedAt(vpage, word) => map_at(op, vpage, word),
        OpChange::GrantedAt(vpage, word) => grant_at(op, vpage, word),
    }
}

/// Notes a bump, whose number before it was `old`.
fn bump_to(op: &mut OpenOp, old: u64)
    requires { IsTrue op.old.due → old + 1 < 2 ^ 64 }
    ensures { op.new ≡ bumped_to (old + 1) op.old }
{
    if op.due {
        op.due = false;
        op.flush = Some(old + 1);
        op.seen = 0;
    }
}

/// Notes the acknowledgement of a processor.
fn see_at(op: &mut OpenOp, cpu: u32, word: u64)
    requires { cpu ≤ 31 }
    ensures { op.new ≡ seen_at cpu word op.old }
{
    if let Some(flush) = op.flush {
        if flush <= word {
            op.seen |= 1 << cpu;
        }
    }
}

/// Notes a bump in every operation, whose number before it was `old`.
#[tactic(auto, using(std::proofs::lemmas::List::Edits::map_over_more))]
pub(crate) fn bump_all(ops: &mut [OpenOp], old: u64)
    requires { All (λ o. IsTrue o.due → old + 1 < 2 ^ 64) ops.old }
    ensures { ops.new ≡ map (bumped_to (old + 1)) ops.old }
{
    for i in 0..ops.len() {
        bump_to(&mut ops[i], old);
    }
}

/// Notes the acknowledgement of a processor in every operation.
#[tactic(auto, using(std::proofs::lemmas::List::Edits::map_over_more))]
pub(crate) fn see_all(ops: &mut [OpenOp], cpu: u32, word: u64)
    requires { cpu ≤ 31 }
    ensures { ops.new ≡ map (seen_at cpu word) ops.old }
{
    for i in 0..ops.len() {
        see_at(&mut ops[i], cpu, word);
    }
}
