//! The rows of the table of actions.

ghost use Rattle.std.specs.Prelude.{◌≡◌, ◌+◌, ◌≤◌, ◌<◌, ◌^◌, ◌-◌};
ghost use Rattle.nm_base.specs.Ranges.{IsFrame, IsPage};
ghost use Rattle.nm_base.specs.ShadowWord.{shadow_word};
ghost use Rattle.nm_view.specs.Operations.{op_on, known_home};
ghost use Rattle.nm_permit.specs.Permitted.{InRange};
ghost use Rattle.nm_words.specs.Names.{IsPlace};
ghost use Rattle.nm_step.specs.Table.{exchange_of, where_of, reply_of, cached_frame, home_frame, named_frame, free_word_of, cell_word, acked_word, bit_mask};

use nm_action::{AckTo, Action, Bit, Cell, Reply};
use nm_base::Geometry;
use nm_base::home_word::home_word;
use nm_base::shadow_word::shadow_word;
use nm_base::table_word::{ACCESSED, DIRTY, GRANT, HINT, all_but, walked_word};
use nm_view::keyed::look_up;
use nm_view::{ActorView, END, OFF};
use nm_words::{Change, Where};

/// The frame to which a cached translation leads.
fn cached_frame(view: &ActorView, vpage: u32) -> u32
    ensures { result ≡ cached_frame view.now vpage }
{
    match look_up(&view.cache, vpage) {
        Some(entry) => entry.frame,
        None => 0,
    }
}

/// The frame that the operation on a page knows as its home.
fn home_frame(g: &Geometry, view: &ActorView, page: u32) -> u32
    requires { IsFrame g.now (home_frame view.now page) }
    ensures { result ≡ home_frame view.now page }
{
    prove!(g.cpus <= 16);
    match view.known_home(page) {
        Some(home) => home.saturating_sub(1) as u32,
        None => 0,
    }
}

/// The word in which a frame has its bit.
pub fn free_word_of(g: &Geometry, frame: u32) -> Where
    requires { IsFrame g.now frame }
    ensures { result ≡ free_word_of g.now frame }
{
    Where::Free(g.tier_of(frame), g.free_index(frame))
}

/// The word that a Read reads.
fn cell_word(cell: Cell) -> Where
    ensures { result ≡ cell_word cell }
{
    match cell {
        Cell::Home(page) => Where::Home(page),
        Cell::Shadow(frame) => Where::Shadow(frame),
    }
}

/// The flag of a table word that a Soften clears.
fn bit_mask(bit: Bit) -> u64
    ensures { result ≡ bit_mask bit }
{
    match bit {
        Bit::Hint => HINT,
        Bit::Accessed => ACCESSED,
    }
}

/// What an acknowledgement says.
fn acked_word(view: &ActorView, to: AckTo) -> u64
    ensures { result ≡ acked_word view.now to }
{
    match to {
        AckTo::Seen => view.req_seen,
        AckTo::Off => OFF,
        AckTo::End => END,
    }
}

/// The word on which an action is an exchange, and the exchange.
pub fn exchange_of(g: &Geometry, view: &ActorView, action: Action) -> (Where, Change)
    requires range { InRange g.now action }
    requires place { IsPlace g.now (where_of g.now view.now action) }
    ensures { result ≡ exchange_of g.now view.now action }
{
    match action {
        Action::Load { vpage, word } => (Where::Mem(cached_frame(view, vpage), word), Change::Keep),
        Action::Store { vpage, word, value } => (
            Where::Mem(cached_frame(view, vpage), word),
            Change::Swap(value),
        ),
        Action::Add { vpage, word, value } => (
            Where::Mem(cached_frame(view, vpage), word),
            Change::Add(value),
        ),
        Action::Look { vpage } => (Where::Pte(vpage), Change::Keep),
        Action::Walk {
            vpage,
            expect,
            write,
        } => (
            Where::Pte(vpage),
            Change::IfIs(expect, walked_word(expect, write)),
        ),
        Action::Peek { vpage } => (Where::Stamp(vpage), Change::Keep),
        Action::Poll => (Where::Req, Change::Keep),
        Action::Ack { to } => (Where::Ack(view.number), Change::Put(acked_word(view, to))),
        Action::Lock { page } => (Where::Lock(page), Change::Take(u64::from(view.number) + 1)),
        Action::Unlock { page } => (Where::Lock(page), Change::Put(0)),
        Action::Bump => (Where::Req, Change::Add(1)),
        Action::SeeAck { cpu } => (Where::Ack(cpu), Change::Keep),
        Action::Raise { vpage } => (Where::Stamp(vpage), Change::Add(1)),
        Action::Soften { vpage, bit } => (Where::Pte(vpage), Change::And(all_but(bit_mask(bit)))),
        Action::Arm { vpage } => (Where::Pte(vpage), Change::Or(HINT)),
        Action::ClearDirty { vpage } => (Where::Pte(vpage), Change::And(all_but(DIRTY))),
        Action::Unmap { vpage } => (Where::Pte(vpage), Change::Swap(0)),
        Action::Map { vpage, word } => (Where::Pte(vpage), Change::Put(word)),
        Action::Grant { vpage } => (Where::Pte(vpage), Change::Xor(GRANT)),
        Action::CopyLoad { page, index } => (
            Where::Mem(home_frame(g, view, page), index),
            Change::Keep,
        ),
        Action::CopyStore {
            frame,
            index,
            value,
            ..
        } => (Where::Mem(frame, index), Change::Put(value)),
        Action::SetHome { page, frame } => (Where::Home(page), Change::Put(home_word(frame))),
        Action::SetShadow {
            page,
            master,
            shadow,
        } => (Where::Shadow(master), put_shadow(g, page, shadow)),
        Action::TakeTurn { tier } => (Where::Turn(tier), Change::Take(u64::from(view.number) + 1)),
        Action::Scan { tier, index } => (Where::Free(tier, index), Change::Keep),
        Action::GiveFrame { frame } => (
            free_word_of(g, frame),
            Change::And(all_but(1 << g.free_bit(frame))),
        ),
        Action::PutFrame { frame } => (free_word_of(g, frame), Change::Or(1 << g.free_bit(frame))),
        Action::ReleaseTurn { tier } => (Where::Turn(tier), Change::Put(0)),
        Action::Mark { page, from, to } => (Where::Mark(page), Change::IfIs(from, to)),
        Action::Read { cell, .. } => (cell_word(cell), Change::Keep),
    }
}

/// The exchange that a SetShadow is.
fn put_shadow(g: &Geometry, page: u32, shadow: Option<u32>) -> Change
    requires { IsPage g.now page }
    ensures { result ≡ Change.Put (shadow_word page shadow) }
{
    prove!(g.cpus <= 16);
    Change::Put(shadow_word(page, shadow))
}

/// The reply of an exchange that found this word.
pub fn reply_of(change: Change, word: u64) -> Reply
    ensures { result ≡ reply_of change word }
{
    match change {
        Change::Put(_) => Reply::Done,
        Change::Take(_) => if word == 0 {
            Reply::Done
        } else {
            Reply::Busy(word)
        },
        Change::IfIs(old, _) => if word == old {
            Reply::Done
        } else {
            Reply::Lost(word)
        },
        _ => Reply::Word(word),
    }
}
