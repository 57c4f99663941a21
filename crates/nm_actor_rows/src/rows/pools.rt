//! Rows of shootdowns and of pool tasks, on machines with pages of 4 words and tiers of 8 frames.

ghost use Rattle.std.specs.Prelude.{◌≡◌, IfOk};
ghost use Rattle.nm_view.specs.Opening.{IsActor};

use super::machine::{Line, play};
use Line::{Gives, Other};
use nm_base::{Geometry, VPage};
use nm_core::State;
use nm_event::{AckTo, Action, Reply};
use nm_pool::{PoolEnd, PoolTask};
use nm_shoot::Shoot;
use std::alloc::Global;
use std::process::Abort;
use std::test::Fail;

const PAGE: Option<VPage> = Some(VPage {
    page: 0,
    writable: true,
});

/// A machine of so many processors.
fn machine(alloc: Global, cpus: u32) -> Result<State, Fail> {
    let g = Geometry::new(alloc, 4, &[8, 8], cpus, &[PAGE])?;
    Ok(State::start(alloc, &g)?)
}

/// Takes the least free frame, as a table says; None where the task may not begin.
fn take(
    rt: &impl Abort,
    state: &mut State,
    actor: u32,
    tier: u32,
    floor: u32,
    lines: &[Line],
) -> Option<PoolEnd> {
    let g = state.geometry();
    if actor >= g.cpus + 2 || tier as usize >= g.tiers.len() || state.view(actor).turn.is_some() {
        return None;
    }
    let mut part = PoolTask::take(g, tier, floor);
    Some(play(rt, state, actor, &mut part, lines))
}

/// Counts the free frames, as a table says; None where the task may not begin.
fn level(
    rt: &impl Abort,
    state: &mut State,
    actor: u32,
    tier: u32,
    lines: &[Line],
) -> Option<PoolEnd> {
    let g = state.geometry();
    if actor >= g.cpus + 2 || tier as usize >= g.tiers.len() || state.view(actor).turn.is_some() {
        return None;
    }
    let mut part = PoolTask::level(g, tier);
    Some(play(rt, state, actor, &mut part, lines))
}

/// Puts a frame back, as a table says; None where the task may not begin.
fn give_back(
    rt: &impl Abort,
    state: &mut State,
    actor: u32,
    frame: u32,
    lines: &[Line],
) -> Option<PoolEnd> {
    let g = state.geometry();
    if actor >= g.cpus + 2 || frame >= g.frames() || state.view(actor).turn.is_some() {
        return None;
    }
    state.view(actor).fill_of(frame)?;
    let mut part = PoolTask::give_back(g, frame);
    Some(play(rt, state, actor, &mut part, lines))
}

/// The shootdown of an actor, as a table says; None where it may not begin.
fn shoot(rt: &impl Abort, state: &mut State, actor: u32, lines: &[Line]) -> Option<u64> {
    let cpus = state.geometry().cpus;
    if actor >= cpus + 2 || !state.view(actor).ops.is_empty() || state.view(actor).bumps != 0 {
        return None;
    }
    let mut part = Shoot::new(cpus);
    Some(play(rt, state, actor, &mut part, lines))
}

#[test]
fn a_shootdown_waits_for_the_number_drawn(rt: HostRuntime) -> Result<(), Fail> {
    // One processor is Off, and is not waited for; the other acknowledges late.
    let mut state = machine(rt.alloc(), 2)?;
    let lines = [
        Other(1, Action::Poll),
        Other(1, Action::Ack { to: AckTo::Seen }),
        Gives(Action::Bump, Reply::Word(0)),
        Gives(Action::SeeAck { cpu: 0 }, Reply::Word(u64::MAX - 1)),
        Gives(Action::SeeAck { cpu: 1 }, Reply::Word(0)),
        Gives(Action::SeeAck { cpu: 1 }, Reply::Word(0)),
        Other(1, Action::Poll),
        Other(1, Action::Ack { to: AckTo::Seen }),
        Gives(Action::SeeAck { cpu: 1 }, Reply::Word(1)),
    ];
    let drawn = shoot(&rt, &mut state, 2, &lines);
    assert!(rt; drawn == Some(1));
    Ok(())
}

// The first tier has the frames 0 to 7, the second 8 to 15.
#[test]
fn a_frame_is_taken_counted_and_put_back(rt: HostRuntime) -> Result<(), Fail> {
    let mut state = machine(rt.alloc(), 1)?;
    // The reclaimer holds the turn at first.
    let busy = [
        Other(2, Action::TakeTurn { tier: 1 }),
        Gives(Action::TakeTurn { tier: 1 }, Reply::Busy(3)),
        Other(2, Action::ReleaseTurn { tier: 1 }),
        Gives(Action::TakeTurn { tier: 1 }, Reply::Done),
        Gives(Action::Scan { tier: 1, index: 0 }, Reply::Word(255)),
        Gives(Action::GiveFrame { frame: 8 }, Reply::Word(255)),
        Gives(Action::ReleaseTurn { tier: 1 }, Reply::Done),
    ];
    let got = take(&rt, &mut state, 1, 1, 7, &busy);
    assert!(rt; got == Some(PoolEnd::Got(8)));
    let put = [
        Gives(Action::TakeTurn { tier: 1 }, Reply::Done),
        Gives(Action::PutFrame { frame: 8 }, Reply::Word(254)),
        Gives(Action::ReleaseTurn { tier: 1 }, Reply::Done),
    ];
    let back = give_back(&rt, &mut state, 1, 8, &put);
    assert!(rt; back == Some(PoolEnd::Back));
    let counted = [
        Gives(Action::TakeTurn { tier: 1 }, Reply::Done),
        Gives(Action::Scan { tier: 1, index: 0 }, Reply::Word(255)),
        Gives(Action::ReleaseTurn { tier: 1 }, Reply::Done),
    ];
    let free = level(&rt, &mut state, 1, 1, &counted);
    assert!(rt; free == Some(PoolEnd::Level(8)));
    // No more than the floor are free.
    let none = take(&rt, &mut state, 1, 1, 8, &counted);
    assert!(rt; none == Some(PoolEnd::AtFloor(8)));
    Ok(())
}
