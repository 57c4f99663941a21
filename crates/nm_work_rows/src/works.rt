//! The pieces of work that rows begin, each with its part.

ghost use Rattle.std.specs.Prelude.{◌≡◌, [], ◌∷◌, length, IsTrue, IfSome};
ghost use Rattle.nm_prepare.specs.Ready.{spent_by};
ghost use Rattle.nm_locked_task.specs.Tasks.{locked_task_made, IsIdleMove};
ghost use Rattle.nm_core.specs.State.{view_of};
ghost use Rattle.nm_work_rows.specs.Reached.{IsReached, MayBeginFault, pieces_of, ArePieces};

use crate::driver::{Line, is_free, play};
use nm_action::Spent;
use nm_base::Geometry;
use nm_batch::BatchTask;
use nm_compose::Composite;
use nm_core::State;
use nm_demote_task::{DemoteEnd, DemoteTask};
use nm_fault::{FaultEnd, FaultTask};
use nm_locked_task::{LockedEnd, LockedTask};
use nm_reclaim::ReclaimTask;
use nm_txn::{Txn, TxnEnd};
use nm_view::ActorView;
use std::alloc::{AllocError, Global};
use std::process::Abort;

/// A piece of work.
#[derive(Clone, Copy, Debug)]
pub enum Work {
    /// The fault on a virtual page that is not mapped.
    MissingFault(u32),
    /// The shadow fault of a virtual page.
    ShadowFault(u32),
    /// Reclaim of a tier: up to ten times so many shadows.
    Reclaim(u32, u32),
    /// The transaction of a page and a virtual page of it.
    Transaction(u32, u32),
    /// The locked move of a page with so many table words.
    LockedMove(u32, u32),
    /// The demotion of a page.
    Demotion(u32),
    /// The batch of three pages, each with the virtual page of its number.
    Batch(u32, u32, u32),
}

/// How it ends.
#[derive(Clone, Copy, Debug, PartialEq, Eq)]
pub enum End {
    Fault(FaultEnd),
    Freed(u32),
    Transaction(TxnEnd),
    LockedMove(LockedEnd),
    Demotion(DemoteEnd),
    Batch(TxnEnd, TxnEnd, TxnEnd),
}

/// What a view has drawn.
fn spent_by(view: &ActorView) -> Spent
    ensures { result ≡ spent_by view.now }
{
    Spent {
        bumps: view.bumps,
        raises: view.raises,
    }
}

/// Whether an actor may begin a fault on a virtual page: it is mapped to a page, and the actor may begin work.
fn is_faulting(g: &Geometry, state: &State, actor: u32, vpage: u32) -> bool
    requires { IsReached g.now state.now }
    ensures { IsTrue result → MayBeginFault g.now actor vpage (view_of state.now actor) }
{
    let Some(page) = g.backing(vpage) else {
        return false;
    };
    (vpage as usize) < g.vpages.len() && page < g.pages() && is_free(g, state, actor)
}

/// The fault on a virtual page that is not mapped. None where it may not begin, or no page is the virtual page's.
fn missing_fault(
    rt: &impl Abort,
    g: &Geometry,
    state: &mut State,
    actor: u32,
    vpage: u32,
    lines: &[Line],
) -> Option<(FaultEnd, u32)>
    requires { IsReached g.now state.old }
    ensures { IsReached g.now state.new }
{
    if !is_faulting(g, state, actor, vpage) {
        return None;
    }
    let mut part = FaultTask::new(g);
    part.begin_missing(vpage);
    Some(play(rt, g, state, actor, &mut part, lines))
}

/// The shadow fault of a virtual page. None where it may not begin, or the virtual page is not mapped.
fn shadow_fault(
    rt: &impl Abort,
    g: &Geometry,
    state: &mut State,
    actor: u32,
    vpage: u32,
    lines: &[Line],
) -> Option<(FaultEnd, u32)>
    requires { IsReached g.now state.old }
    ensures { IsReached g.now state.new }
{
    if !is_faulting(g, state, actor, vpage) {
        return None;
    }
    let mut part = FaultTask::new(g);
    part.begin_shadow(vpage);
    Some(play(rt, g, state, actor, &mut part, lines))
}

/// Reclaim of a tier, with no page left out. None where it may not begin.
fn reclaim(
    rt: &impl Abort,
    g: &Geometry,
    state: &mut State,
    actor: u32,
    tier: u32,
    want: u32,
    lines: &[Line],
) -> Option<(u32, u32)>
    requires { IsReached g.now state.old }
    ensures { IsReached g.now state.new }
{
    if tier as usize >= g.tiers.len() || !is_free(g, state, actor) {
        return None;
    }
    let mut part = ReclaimTask::new(g);
    part.begin(tier, want, None);
    Some(play(rt, g, state, actor, &mut part, lines))
}

/// The transaction of a page and a virtual page. None where it may not begin.
fn transaction(
    rt: &impl Abort,
    g: &Geometry,
    state: &mut State,
    actor: u32,
    page: u32,
    vpage: u32,
    lines: &[Line],
) -> Option<(TxnEnd, u32)>
    requires { IsReached g.now state.old }
    ensures { IsReached g.now state.new }
{
    if page >= g.pages() || !is_free(g, state, actor) {
        return None;
    }
    let spent = spent_by(state.view(actor));
    let mut part = Composite::new(Txn::new(g, page, vpage, spent));
    Some(play(rt, g, state, actor, &mut part, lines))
}

/// The locked move of a page with so many table words, by a task that has no work. None where it may not begin.
fn locked_move(
    rt: &impl Abort,
    g: &Geometry,
    state: &mut State,
    actor: u32,
    part: &mut LockedTask<'_>,
    page: u32,
    count: u32,
    lines: &[Line],
) -> Option<(LockedEnd, u32)>
    requires reached { IsReached g.now state.old }
    requires idle { IsIdleMove part.old }
    requires geometry { (locked_task_made part.old).0 ≡ g.now }
    ensures reached { IsReached g.now state.new }
    ensures idle { IsIdleMove part.new }
    ensures geometry { (locked_task_made part.new).0 ≡ g.now }
{
    if page >= g.pages() || count == 0 || !is_free(g, state, actor) {
        return None;
    }
    part.begin(spent_by(state.view(actor)), page, count);
    Some(play(rt, g, state, actor, part, lines))
}

/// The demotion of a page. None where it may not begin. The only error is want of memory.
fn demotion(
    rt: &impl Abort,
    alloc: Global,
    g: &Geometry,
    state: &mut State,
    actor: u32,
    page: u32,
    lines: &[Line],
) -> Result<Option<(DemoteEnd, u32)>, AllocError>
    requires { IsReached g.now state.old }
    ensures { IsReached g.now state.new }
{
    if page >= g.pages() || !is_free(g, state, actor) {
        return Ok(None);
    }
    let mut part = DemoteTask::new(alloc, g)?;
    part.begin(spent_by(state.view(actor)), page);
    Ok(Some(play(rt, g, state, actor, &mut part, lines)))
}

/// Whether an actor may begin a batch of three pages: they are there and differ, and the actor may begin work.
fn are_pieces(g: &Geometry, state: &State, actor: u32, a: u32, b: u32, c: u32) -> bool
    requires { IsReached g.now state.now }
    ensures { IsTrue result → ArePieces g.now actor (pieces_of a b c) (view_of state.now actor) }
{
    let there = a < g.pages() && b < g.pages() && c < g.pages();
    there && a != b && a != c && b != c && is_free(g, state, actor)
}

/// How the piece at this place of a batch that is over has ended.
fn end_at(rt: &impl Abort, part: &BatchTask<'_>, count: u32, i: u32) -> TxnEnd
    requires { count ≡ length part.now.ends.value }
{
    assert!(rt; i < count, "piece {i}");
    part.end_of(i)
}

/// The batch of three pages, each with the virtual page of its number. None where it may not begin. The only error is want of
/// memory.
fn batch(
    rt: &impl Abort,
    alloc: Global,
    g: &Geometry,
    state: &mut State,
    actor: u32,
    pages: (u32, u32, u32),
    lines: &[Line],
) -> Result<Option<(End, u32)>, AllocError>
    requires { IsReached g.now state.old }
    ensures { IsReached g.now state.new }
{
    let (a, b, c) = pages;
    if !are_pieces(g, state, actor, a, b, c) {
        return Ok(None);
    }
    let mut part = BatchTask::new(alloc, g)?;
    part.begin(spent_by(state.view(actor)), &[(a, a), (b, b), (c, c)]);
    let (count, more) = play(rt, g, state, actor, &mut part, lines);
    let first = end_at(rt, &part, count, 0);
    let second = end_at(rt, &part, count, 1);
    let third = end_at(rt, &part, count, 2);
    Ok(Some((End::Batch(first, second, third), more)))
}

/// Runs a piece of work as the lines say, and then to its end: how it ends, and how many actions it made after the last line.
/// None where it may not begin. The task is for locked moves. The only error is want of memory.
pub fn run(
    rt: &impl Abort,
    alloc: Global,
    g: &Geometry,
    state: &mut State,
    task: &mut LockedTask<'_>,
    actor: u32,
    work: Work,
    lines: &[Line],
) -> Result<Option<(End, u32)>, AllocError>
    requires reached { IsReached g.now state.old }
    requires idle { IsIdleMove task.old }
    requires geometry { (locked_task_made task.old).0 ≡ g.now }
    ensures reached { IsReached g.now state.new }
    ensures idle { IsIdleMove task.new }
    ensures geometry { (locked_task_made task.new).0 ≡ g.now }
{
    let ended = match work {
        Work::MissingFault(vpage) => missing_fault(rt, g, state, actor, vpage, lines).map(|(
            end,
            more,
        )| (End::Fault(end), more)),
        Work::ShadowFault(vpage) => shadow_fault(rt, g, state, actor, vpage, lines).map(|(
            end,
            more,
        )| (End::Fault(end), more)),
        Work::Reclaim(tier, want) => reclaim(rt, g, state, actor, tier, want, lines).map(|(
            freed,
            more,
        )| (End::Freed(freed), more)),
        Work::Transaction(page, vpage) => transaction(rt, g, state, actor, page, vpage, lines).map(
            |(end, more)| (End::Transaction(end), more),
        ),
        Work::LockedMove(page, count) => {
            locked_move(rt, g, state, actor, task, page, count, lines).map(|(end, more)| (
                End::LockedMove(end),
                more,
            ))
        }
        Work::Demotion(page) => demotion(rt, alloc, g, state, actor, page, lines)?.map(|(
            end,
            more,
        )| (End::Demotion(end), more)),
        Work::Batch(a, b, c) => batch(rt, alloc, g, state, actor, (a, b, c), lines)?,
    };
    Ok(ended)
}
