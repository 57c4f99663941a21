//! Two threads that race on one word: the own lists of their seats merge.

ghost use Rattle.std.specs.Prelude.{◌≡◌};
ghost use Rattle.nm_arena.specs.Seats.{IsActorSeat};

use crate::driver::{Running, close, ends_as, geometry, make, started, take};
use nm_action::{Action, Reply};
use nm_arena::{Arena, Seat};
use nm_base::Geometry;
use nm_core::State;
use std::test::Fail;
use std::thread;
use std::thread::Threads;

/// Each thread draws so many numbers.
const DRAWN: usize = 200;

/// A seat, and the numbers that its actor has drawn.
#[derive(Drop)]
struct Drawn {
    seat: Seat,
    numbers: [u64; DRAWN],
}

/// Draws numbers, each by one Bump.
fn draw(arena: &Arena, g: &Geometry, mut seat: Seat) -> Drawn
    requires geometry { arena.now.geometry ≡ g.now }
    requires seat { IsActorSeat arena.now seat }
    ensures { IsActorSeat arena.now result.seat }
{
    let mut numbers = [0; DRAWN];
    for i in 0..DRAWN {
        if let Some(Reply::Word(drawn)) = take(arena, g, &mut seat, Action::Bump) {
            numbers[i] = drawn;
        }
    }
    Drawn { seat, numbers }
}

/// Two threads draw numbers at the same time, each on its seat.
fn race<R: Threads + Sync>(
    rt: &R,
    arena: &Arena,
    g: &Geometry,
    one: Seat,
    two: Seat,
) -> (Drawn, Drawn)
    requires geometry { arena.now.geometry ≡ g.now }
    requires one { IsActorSeat arena.now one }
    requires two { IsActorSeat arena.now two }
    ensures one { IsActorSeat arena.now result.0.seat }
    ensures two { IsActorSeat arena.now result.1.seat }
{
    thread::join(
        rt,
        move || -> Drawn
            requires { (arena.now.geometry ≡ g.now) × IsActorSeat arena.now one }
            ensures { IsActorSeat arena.entry.now result.seat }
        { draw(arena, g, one) },
        move || -> Drawn
            requires { (arena.now.geometry ≡ g.now) × IsActorSeat arena.now two }
            ensures { IsActorSeat arena.entry.now result.seat }
        { draw(arena, g, two) },
    )
}

/// Makes the Bumps of both threads on a plain machine, in the order of their numbers, and says whether each gives its number.
fn is_merge(state: &mut State, one: &[u64; DRAWN], two: &[u64; DRAWN]) -> bool
    ensures { state.new.geometry ≡ state.old.geometry }
{
    let mut i = 0;
    let mut j = 0;
    for number in 0..2 * DRAWN as u64 {
        let actor = if i < DRAWN && one[i] == number {
            i += 1;
            0
        } else if j < DRAWN && two[j] == number {
            j += 1;
            1
        } else {
            return false;
        };
        if make(state, actor, Action::Bump) != Some(Reply::Word(number)) {
            return false;
        }
    }
    true
}

#[test]
fn two_threads_draw_numbers(rt: HostRuntime) -> Result<(), Fail> {
    let g = geometry(rt.alloc())?;
    let mut state = State::start(rt.alloc(), &g)?;
    let Running {
        arena,
        first,
        one,
        two,
    } = started(rt.alloc(), &g)?;
    let (one, two) = race(&rt, &arena, &g, one, two);
    assert!(&rt; is_merge(&mut state, &one.numbers, &two.numbers));
    let ended = Running {
        arena,
        first,
        one: one.seat,
        two: two.seat,
    };
    let end = close(&rt, rt.alloc(), &g, ended)?;
    assert!(rt; ends_as(rt.alloc(), &g, &end, &state)?);
    Ok(())
}
