//! Each row is run.

ghost use Rattle.std.specs.Prelude.{◌≡◌, IfOk};
ghost use Rattle.nm_base.specs.Geometry.{IsGeometry};
ghost use Rattle.nm_locked_task.specs.Tasks.{locked_task_made, IsIdleMove};
ghost use Rattle.nm_work_rows.specs.Reached.{IsReached};

use crate::batches::batches;
use crate::demotions::demotions;
use crate::driver::{Line, act};
use crate::faults::faults;
use crate::scenes::{Deed, Machine, Row, rows};
use crate::works::run;
use nm_base::{Geometry, VPage};
use nm_core::{Role, State};
use nm_locked_task::LockedTask;
use std::alloc::{AllocError, Global};
use std::process::Abort;
use std::test::Fail;

const PAGE: Option<VPage> = Some(VPage {
    page: 0,
    writable: true,
});

const PAGE_1: Option<VPage> = Some(VPage {
    page: 1,
    writable: true,
});

const PAGE_2: Option<VPage> = Some(VPage {
    page: 2,
    writable: true,
});

const READ_ONLY: Option<VPage> = Some(VPage {
    page: 0,
    writable: false,
});

/// The geometry of one processor with pages of four words.
fn of(alloc: Global, tiers: &[u32], vpages: &[Option<VPage>]) -> Result<Geometry, Fail>
    ensures { IfOk result IsGeometry }
{
    let g = Geometry::new(alloc, 4, tiers, 1, vpages)?;
    Ok(g)
}

/// The geometry of a machine.
fn geometry(alloc: Global, machine: Machine) -> Result<Geometry, Fail>
    ensures { IfOk result IsGeometry }
{
    match machine {
        Machine::Plain => of(alloc, &[2, 10], &[PAGE]),
        Machine::Aliased => of(alloc, &[2, 10], &[PAGE, PAGE]),
        Machine::ThreeTiers => of(alloc, &[2, 2, 8], &[PAGE]),
        Machine::ThreePages => of(alloc, &[3, 11], &[PAGE, PAGE_1, PAGE_2]),
        Machine::ReadOnly => of(alloc, &[4, 8], &[PAGE, READ_ONLY]),
    }
}

/// The state of a machine in which nothing was done.
fn started(alloc: Global, g: &Geometry) -> Result<State, AllocError>
    requires { IsGeometry g.now }
    ensures { IfOk result (λ s. IsReached g.now s) }
{
    let state = State::start(alloc, g)?;
    Ok(state)
}

/// All lines of some stretches, in order.
fn joined(alloc: Global, stretches: &[&[Line]]) -> Result<Vec<Line>, AllocError> {
    let mut lines = Vec::new(alloc);
    for stretch in stretches {
        for line in *stretch {
            lines.push(*line)?;
        }
    }
    Ok(lines)
}

/// Does what a row says, and asserts each reply and each end.
fn follow(
    rt: &impl Abort,
    alloc: Global,
    g: &Geometry,
    state: &mut State,
    task: &mut LockedTask<'_>,
    row: &Row,
) -> Result<(), AllocError>
    requires reached { IsReached g.now state.old }
    requires idle { IsIdleMove task.old }
    requires geometry { (locked_task_made task.old).0 ≡ g.now }
    ensures { IsReached g.now state.new }
{
    for deed in row.deeds {
        match deed {
            Deed::Acts(events) => {
                for event in *events {
                    let told = act(g, state, event.actor, event.action);
                    assert_eq!(rt; told, Some(event.reply), "{}: {event:?}", row.name);
                }
            }
            Deed::Works(actor, work, stretches, more, end) => {
                let lines = joined(alloc, stretches)?;
                let ended = run(rt, alloc, g, state, task, *actor, *work, &lines)?;
                assert_eq!(rt; ended, Some((*end, *more)), "{}: {work:?}", row.name);
            }
        }
    }
    Ok(())
}

/// Asserts the home and the mark of some pages.
fn pages_are(rt: &impl Abort, state: &State, row: &Row) {
    for (page, home, mark) in row.pages {
        assert!(rt; *page < state.geometry().pages());
        assert_eq!(rt;
            (state.home(*page), state.mark(*page)),
            (*home, *mark),
            "{}: page {page}",
            row.name
        );
    }
}

/// Asserts what the state tells of some frames.
fn frames_are(rt: &impl Abort, state: &State, row: &Row) {
    for (frame, role, shadow) in row.frames {
        assert!(rt; *frame < state.geometry().frames());
        assert_eq!(rt;
            (state.role(*frame), state.shadow(*frame)),
            (*role, *shadow),
            "{}: frame {frame}",
            row.name
        );
    }
}

/// Runs some rows, and asserts all that they say.
fn come_out(rt: &impl Abort, alloc: Global, rows: &[Row]) -> Result<(), Fail> {
    for row in rows {
        let g = geometry(alloc, row.machine)?;
        let mut state = started(alloc, &g)?;
        let mut task = LockedTask::new(alloc, &g)?;
        follow(rt, alloc, &g, &mut state, &mut task, row)?;
        pages_are(rt, &state, row);
        frames_are(rt, &state, row);
    }
    Ok(())
}

#[test]
fn each_row_comes_out(rt: HostRuntime) -> Result<(), Fail> {
    come_out(&rt, rt.alloc(), &rows())?;
    Ok(())
}

#[test]
fn each_demotion_comes_out(rt: HostRuntime) -> Result<(), Fail> {
    come_out(&rt, rt.alloc(), &demotions())?;
    Ok(())
}

#[test]
fn each_fault_comes_out(rt: HostRuntime) -> Result<(), Fail> {
    come_out(&rt, rt.alloc(), &faults())?;
    Ok(())
}

#[test]
fn each_batch_comes_out(rt: HostRuntime) -> Result<(), Fail> {
    come_out(&rt, rt.alloc(), &batches())?;
    Ok(())
}
