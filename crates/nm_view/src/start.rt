//! Opening views.

ghost use Rattle.std.specs.Prelude.{◌≡◌, ◌≤◌, ◌<◌, ◌^◌, All, IfOk, IfSome, length, slice_index, vec_capacity};
ghost use Rattle.nm_view.specs.Views.{most_ops};
ghost use Rattle.nm_view.specs.Opening.{opened, opening, counted_page, most_aliases, HasCounts, IsActor};
ghost use Rattle.nm_base.specs.Geometry.{page_count};

use crate::view::{ActorView, MOST_OPS, OFF, OpenOp, Phase, Room, Scanned};
use nm_base::Geometry;
use std::alloc::{AllocError, Global};

impl OpenOp {
    /// An operation in which nothing is known, with room for so many virtual pages.
    fn with_room(alloc: Global, page: u32, room: usize) -> Result<OpenOp, AllocError>
        ensures { IfOk result (λ o. o ≡ opened page room) }
    {
        let looked = Vec::with_capacity(alloc, room)?;
        let taken = Vec::with_capacity(alloc, room)?;
        let wet = Vec::with_capacity(alloc, room)?;
        let raised = Vec::with_capacity(alloc, room)?;
        Ok(OpenOp {
            page,
            home: None,
            shadow: None,
            looked,
            taken,
            phase: Phase::Held,
            cleared: false,
            moved: false,
            due: false,
            flush: None,
            seen: 0,
            copied: 0,
            last: None,
            wet,
            raised,
            room,
        })
    }
}

/// As many closed operations as a view can open, each with this room.
fn closed_ops(alloc: Global, room: usize) -> Result<Vec<OpenOp>, AllocError>
    ensures length { IfOk result (λ ops. length ops.items ≡ most_ops) }
    ensures capacity { IfOk result (λ ops. most_ops ≤ vec_capacity ops) }
    ensures room { IfOk result (λ ops. All (λ o. o.room ≡ room) ops.items) }
{
    let mut ops = Vec::with_capacity(alloc, MOST_OPS)?;
    for _made in 0..MOST_OPS {
        let op = OpenOp::with_room(alloc, 0, room)?;
        ops.push_reserved(op);
    }
    Ok(ops)
}

/// Nothing scanned.
pub const UNSCANNED: Scanned = Scanned {
    words: 0,
    sum: 0,
    least: None,
};

/// Counts one more virtual page of a backing page, if there is such a page.
fn count_alias(counts: &mut Vec<usize>, page: Option<u32>)
    requires within { IfSome page (λ b. b < length counts.old.items) }
    requires few { (b : _) → slice_index counts.old.items b < 2 ^ 63 }
    ensures { counts.new.items ≡ counted_page page counts.old.items }
{
    if let Some(page) = page {
        counts[page as usize] += 1;
    }
}

/// How many virtual pages each backing page has.
fn alias_counts(alloc: Global, g: &Geometry) -> Result<Vec<usize>, AllocError>
    ensures { IfOk result (λ counts. HasCounts counts.items g.now.vpages (page_count g.now)) }
{
    let mut counts = vec![in alloc; 0; g.pages() as usize]?;
    for v in 0..g.vpages.len() {
        count_alias(&mut counts, g.backing(v as u32));
    }
    Ok(counts)
}

/// The most virtual pages that one backing page has. `AllocError` comes where there is no memory to count them.
fn most_aliases(alloc: Global, g: &Geometry) -> Result<usize, AllocError>
    ensures { IfOk result (λ n. n ≡ most_aliases g.now) }
{
    let counts = alias_counts(alloc, g)?;
    let mut most = 0;
    for page in 0..g.pages() {
        most = counts[page as usize].max(most);
    }
    Ok(most)
}

impl ActorView {
    /// The view of an actor that has made no step, with room for all that it may hold. The actor is a processor, or
    /// the migrator or the reclaimer, which come after the processors.
    pub fn start(alloc: Global, g: &Geometry, number: u32) -> Result<ActorView, AllocError>
        requires { IsActor g.now number }
        ensures { IfOk result (λ view. view ≡ opening g.now number) }
    {
        let room = Room {
            vpages: g.vpages.len(),
            aliases: most_aliases(alloc, g)?,
            frames: g.frames() as usize,
        };
        let cache = Vec::with_capacity(alloc, room.vpages)?;
        let peeked = Vec::with_capacity(alloc, room.vpages)?;
        let owned = Vec::with_capacity(alloc, room.frames)?;
        let ops = Vec::with_capacity(alloc, MOST_OPS)?;
        let closed = closed_ops(alloc, room.aliases)?;
        Ok(ActorView {
            number,
            cache,
            req_seen: OFF,
            ops,
            owned,
            turn: None,
            scan: UNSCANNED,
            bumps: 0,
            acked: OFF,
            peeked,
            raises: 0,
            room,
            closed,
        })
    }
}
