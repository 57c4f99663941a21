//! Which actor makes which turn: rows that were worked out by hand.

ghost use Rattle.std.specs.Prelude.{◌≡◌, ◌<◌, IsTrue, All, IfOk, length, [], None};
ghost use Rattle.nm_script.specs.Script.{IsSchedule};
ghost use Rattle.nm_schedule_rows.specs.Listed.{IsSmall, IsAlwaysPermitted, IsListed};

use crate::listed::Listed;
use nm_action::{Action, ActionKind, Event, Lane, Turn};
use nm_base::{Geometry, VPage};
use nm_play::{Actors, Keep, run_schedule};
use nm_schedule::{SimAct, SimTurn};
use nm_script::{PlanItem, PlanItems, Schedule};
use std::alloc::Global;
use std::mem::size_of;
use std::process::Abort;
use std::test::Fail;

/// A look never stalls.
const LOOK: Turn = Turn::Do(Action::Look { vpage: 0 });
/// The processor never acknowledges, so reading its acknowledgement stalls.
const SEE: Turn = Turn::Do(Action::SeeAck { cpu: 0 });

/// One virtual page, tiers of 4 and of 8 frames, one processor.
fn geometry(alloc: Global) -> Result<Geometry, Fail>
    ensures { IfOk result IsSmall }
{
    let vpage = VPage {
        page: 0,
        writable: true,
    };
    Ok(Geometry::new(alloc, 4, &[4, 8], 1, &[Some(vpage)])?)
}

/// Whether there are turns, and each is one that every view permits.
fn are_permitted(turns: &[Turn]) -> bool
    ensures { IsTrue result → All IsAlwaysPermitted turns.now × (0 < length turns.now) }
{
    turns.iter().all(|turn| is_permitted(*turn)) && !turns.is_empty()
}

/// Whether every view permits a turn, of a machine with one virtual page and one processor.
fn is_permitted(turn: Turn) -> bool
    ensures { IsTrue result → IsAlwaysPermitted turn }
{
    match turn {
        Turn::Do(Action::Look { vpage }) => vpage == 0,
        Turn::Do(Action::SeeAck { cpu }) => cpu == 0,
        Turn::Do(_) => false,
        Turn::Put(_, _) => true,
        Turn::Take(_) => true,
        Turn::End => false,
    }
}

/// An actor of this number that gives the turns of a list. Conditions: the machine has one virtual page and one processor,
/// there are turns, and every view permits each.
fn listed<'a>(g: &'a Geometry, number: u32, turns: &'a [Turn]) -> Listed<'a>
    requires small { IsSmall g.now }
    requires turns { All IsAlwaysPermitted turns.now × (0 < length turns.now) }
    ensures made { (result.geometry.now ≡ g.now) × (result.number ≡ number) }
    ensures fresh { IsListed result.geometry.now result.turns.now result.given result.last [] None }
{
    Listed {
        geometry: g,
        number,
        turns,
        given: 0,
        last: None,
    }
}

/// Runs a processor, a migrator and a reclaimer, which give the turns of these lists, in the order of a schedule.
fn run(
    rt: &impl Abort,
    alloc: Global,
    lists: [&[Turn]; 3],
    schedule: &Schedule,
) -> Result<Vec<SimTurn>, Fail>
    requires { IsSchedule 1 schedule.now }
{
    let g = geometry(alloc)?;
    let [cpu, migrator, reclaimer] = lists;
    assert!(rt; are_permitted(cpu));
    assert!(rt; are_permitted(migrator));
    assert!(rt; are_permitted(reclaimer));
    let crew = Actors {
        cpus: vec![in alloc; listed(&g, 0, cpu)]?,
        migrator: listed(&g, 1, migrator),
        reclaimer: listed(&g, 2, reclaimer),
    };
    let run = run_schedule(alloc, &g, schedule, crew, Keep::new(alloc))?;
    Ok(run.watcher.order)
}

/// The actors of some turns, in order.
fn actors_of(alloc: Global, order: &[SimTurn]) -> Result<Vec<u32>, Fail> {
    let mut actors = Vec::new(alloc);
    for turn in order {
        actors.push(turn.actor)?;
    }
    Ok(actors)
}

/// Runs actors of these lists, and compares the actors of the turns, in order, with those that were worked out.
fn plays(
    rt: &impl Abort,
    alloc: Global,
    lists: [&[Turn]; 3],
    schedule: &Schedule,
    actors: &[u32],
) -> Result<(), Fail>
    requires { IsSchedule 1 schedule.now }
{
    let order = run(rt, alloc, lists, schedule)?;
    let played = actors_of(alloc, &order)?;
    assert!(rt; played.as_slice() == actors);
    Ok(())
}

/// An item of a plan that counts looks.
fn looks(actor: u32, count: u32) -> PlanItem
    ensures { result ≡ record { actor = actor; kind = ActionKind.Look; count = count } }
{
    PlanItem {
        actor,
        kind: ActionKind::Look,
        count,
    }
}

/// The migrator stalls at its first turn.
const LISTS: [&[Turn]; 3] = [&[LOOK, LOOK], &[SEE, LOOK], &[LOOK]];

#[test]
fn one_actor_goes_on_until_it_ends_or_stalls(rt: HostRuntime) -> Result<(), Fail> {
    let schedule = Schedule::Serial { turns: 100 };
    plays(&rt, rt.alloc(), LISTS, &schedule, &[0, 0, 1, 2, 1])?;
    let schedule = Schedule::Serial { turns: 3 };
    plays(&rt, rt.alloc(), LISTS, &schedule, &[0, 0, 1])
}

#[test]
fn random_numbers_draw_the_actors(rt: HostRuntime) -> Result<(), Fail> {
    let schedule = Schedule::Shuffle {
        number: 7,
        turns: 100,
    };
    plays(&rt, rt.alloc(), LISTS, &schedule, &[2, 1, 1, 0, 0])?;
    let schedule = Schedule::Shuffle {
        number: 8,
        turns: 100,
    };
    plays(&rt, rt.alloc(), LISTS, &schedule, &[1, 0, 2, 1, 0])
}

#[test]
fn a_plan_looks_at_no_stall(rt: HostRuntime) -> Result<(), Fail> {
    // After the items the cooperative rule begins at the processor.
    let items = PlanItems {
        items: vec![in rt.alloc(); looks(1, 1), looks(0, 1)]?,
    };
    let schedule = Schedule::Plan { turns: 100, items };
    plays(&rt, rt.alloc(), LISTS, &schedule, &[1, 1, 0, 0, 2])
}

#[test]
fn a_lane_gives_the_first_page(rt: HostRuntime) -> Result<(), Fail> {
    let lane = Lane::Candidates;
    let order = run(
        &rt,
        rt.alloc(),
        [
            &[Turn::Put(lane, 3), Turn::Put(lane, 5)],
            &[Turn::Take(lane), Turn::Take(lane), Turn::Take(lane)],
            &[LOOK],
        ],
        &Schedule::Serial { turns: 5 },
    )?;
    let acts = [
        SimAct::Put {
            lane,
            page: 3,
            full: false,
        },
        SimAct::Put {
            lane,
            page: 5,
            full: false,
        },
        SimAct::Take {
            lane,
            page: Some(3),
        },
        SimAct::Take {
            lane,
            page: Some(5),
        },
        SimAct::Take { lane, page: None },
    ];
    assert!(rt; order.len() == acts.len());
    for (turn, act) in order.iter().zip(acts.iter()) {
        assert!(rt; turn.act == *act);
    }
    Ok(())
}

#[test]
fn an_entry_takes_few_bytes(rt: HostRuntime) {
    assert!(rt; size_of::<Event>() <= 64);
    assert!(rt; size_of::<SimTurn>() <= 32);
}
