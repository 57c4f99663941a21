//! Lists that are followed, and steps under each law.

use crate::driver::{Law, end_alike, ending, failure, follow, joined, machine, run};
use crate::list::stretches;
use nm_action::{Event, Reply};
use nm_core::{EndWords, Role};
use nm_laws::RunEnd;
use std::alloc::Global;
use std::process::Abort;
use std::test::Fail;

/// Another reply than this one.
fn other_than(reply: Reply) -> Reply {
    match reply {
        Reply::Done => Reply::Word(0),
        Reply::Word(word) => Reply::Word(word ^ 1),
        Reply::Busy(_) => Reply::Done,
        Reply::Lost(word) => Reply::Word(word),
    }
}

/// A list in which the reply of one event is another.
fn with_other_reply(alloc: Global, events: &[Event], place: usize) -> Result<Vec<Event>, Fail> {
    let mut list = Vec::new(alloc);
    for (number, event) in events.iter().enumerate() {
        let mut event = *event;
        if number == place {
            event.reply = other_than(event.reply);
        }
        list.push(event)?;
    }
    Ok(list)
}

/// Each event that is refused after a stretch, behind the list up to there: the first failure is at its place.
fn refuses(rt: &impl Abort, alloc: Global, front: &[Event], refused: &[Event]) -> Result<(), Fail> {
    for event in refused {
        let mut list = Vec::new(alloc);
        for made in front {
            list.push(*made)?;
        }
        list.push(*event)?;
        let told = failure(rt, alloc, &list)?;
        assert!(rt; told == Some(front.len()), "{event:?}");
    }
    Ok(())
}

#[test]
fn each_front_is_a_run(rt: HostRuntime) -> Result<(), Fail> {
    let events = joined(rt.alloc(), &stretches())?;
    for length in 0..=events.len() {
        let told = failure(&rt, rt.alloc(), &events[..length])?;
        assert!(rt; told.is_none(), "{length}");
    }
    Ok(())
}

#[test]
fn what_is_no_step_is_told(rt: HostRuntime) -> Result<(), Fail> {
    let list = stretches();
    for number in 0..list.len() {
        let front = joined(rt.alloc(), &list[..=number])?;
        refuses(&rt, rt.alloc(), &front, list[number].refused)?;
    }
    Ok(())
}

#[test]
fn another_reply_is_told(rt: HostRuntime) -> Result<(), Fail> {
    let events = joined(rt.alloc(), &stretches())?;
    for place in 0..events.len() {
        let list = with_other_reply(rt.alloc(), &events, place)?;
        let told = failure(&rt, rt.alloc(), &list)?;
        assert!(rt; told == Some(place), "{place}");
    }
    Ok(())
}

#[test]
fn the_first_of_two_is_told(rt: HostRuntime) -> Result<(), Fail> {
    let events = joined(rt.alloc(), &stretches())?;
    for place in 1..events.len() {
        let one = with_other_reply(rt.alloc(), &events, place)?;
        let both = with_other_reply(rt.alloc(), &one, place - 1)?;
        let told = failure(&rt, rt.alloc(), &both)?;
        assert!(rt; told == Some(place - 1), "{place}");
    }
    Ok(())
}

/// Every law, and the plain step.
fn laws() -> [Law; 7] {
    [
        Law::Apply,
        Law::All,
        Law::Lock,
        Law::Cache,
        Law::Copy,
        Law::Shadow,
        Law::Frame,
    ]
}

/// The end words of a run.
fn run_end(rt: &impl Abort, alloc: Global, events: &[Event]) -> Result<EndWords, Fail> {
    match follow(rt, alloc, events)? {
        RunEnd::Whole(state) => ending(rt, alloc, &state),
        RunEnd::Fails(number) => panic!(rt; "no run: {number}"),
    }
}

/// The end words where a law makes all steps.
fn end_under(rt: &impl Abort, alloc: Global, law: Law, events: &[Event]) -> Result<EndWords, Fail> {
    let mut state = machine(alloc)?;
    assert!(rt; run(law, &mut state, events), "{law:?}");
    ending(rt, alloc, &state)
}

#[test]
fn the_list_ends_settled(rt: HostRuntime) -> Result<(), Fail> {
    let events = joined(rt.alloc(), &stretches())?;
    let end = run_end(&rt, rt.alloc(), &events)?;
    assert!(rt; end.homes.len() == 1 && end.homes[0] == Some(2));
    assert!(rt; end.roles.get(2).copied() == Some(Role::Mapped));
    assert!(rt; end.settled);
    Ok(())
}

#[test]
fn each_law_makes_the_steps(rt: HostRuntime) -> Result<(), Fail> {
    let events = joined(rt.alloc(), &stretches())?;
    let wanted = run_end(&rt, rt.alloc(), &events)?;
    for law in laws() {
        let end = end_under(&rt, rt.alloc(), law, &events)?;
        assert!(rt; end_alike(&end, &wanted), "{law:?}");
    }
    Ok(())
}
