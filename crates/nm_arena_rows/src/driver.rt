//! A running machine with seats of two actors, and the same machine as a plain state.

ghost use Rattle.std.specs.Prelude.{◌≡◌, IfOk};
ghost use Rattle.nm_arena.specs.Seats.{IsActorSeat, IsFirstSeat};

use nm_action::{Action, Reply};
use nm_arena::{Arena, Seat};
use nm_base::{Geometry, VPage};
use nm_core::{EndWords, State};
use nm_permit::allowed;
use std::alloc::Global;
use std::process::Abort;
use std::test::Fail;

const WRITABLE: Option<VPage> = Some(VPage {
    page: 0,
    writable: true,
});

/// One processor, 4 words a page, two tiers of 16 frames, and one page.
pub fn geometry(alloc: Global) -> Result<Geometry, Fail> {
    Ok(Geometry::new(alloc, 4, &[16, 16], 1, &[WRITABLE])?)
}

/// A running machine, its first seat, and the seats of the processor and the migrator.
#[derive(Drop)]
pub struct Running {
    pub arena: Arena,
    pub first: Seat,
    pub one: Seat,
    pub two: Seat,
}

/// A running machine in which nothing was done.
pub fn started(alloc: Global, g: &Geometry) -> Result<Running, Fail>
    ensures geometry { IfOk result (λ r. r.arena.geometry ≡ g.now) }
    ensures first { IfOk result (λ r. IsFirstSeat r.arena r.first) }
    ensures one { IfOk result (λ r. IsActorSeat r.arena r.one) }
    ensures two { IfOk result (λ r. IsActorSeat r.arena r.two) }
{
    let (arena, mut first) = Arena::start(alloc, g)?;
    let one = arena.split(&mut first, 0);
    let two = arena.split(&mut first, 1);
    Ok(Running {
        arena,
        first,
        one,
        two,
    })
}

/// Makes a step of a seat where it is permitted.
pub fn take(arena: &Arena, g: &Geometry, seat: &mut Seat, action: Action) -> Option<Reply>
    requires geometry { arena.now.geometry ≡ g.now }
    requires seat { IsActorSeat arena.now seat.old }
    ensures { IsActorSeat arena.now seat.new }
{
    if !allowed(g, seat.view(), action) {
        return None;
    }
    Some(arena.step(seat, action))
}

/// Makes the same step of the plain machine.
pub fn make(state: &mut State, actor: u32, action: Action) -> Option<Reply>
    ensures { state.new.geometry ≡ state.old.geometry }
{
    if actor >= state.geometry().cpus + 2 {
        return None;
    }
    if !allowed(state.geometry(), state.view(actor), action) {
        return None;
    }
    Some(state.apply(actor, action))
}

/// Joins both seats back and closes the machine. Its end words.
pub fn close(
    rt: &impl Abort,
    alloc: Global,
    g: &Geometry,
    running: Running,
) -> Result<EndWords, Fail>
    requires geometry { running.arena.geometry ≡ g.now }
    requires first { IsFirstSeat running.arena running.first }
    requires one { IsActorSeat running.arena running.one }
    requires two { IsActorSeat running.arena running.two }
{
    let Running {
        arena,
        mut first,
        one,
        two,
    } = running;
    arena.join(&mut first, one);
    arena.join(&mut first, two);
    assert!(rt; first.are_all_back());
    let mut end = EndWords::with_room(alloc, g)?;
    arena.close(first, &mut end);
    Ok(end)
}

/// Whether two machines end alike.
fn end_alike(one: &EndWords, other: &EndWords) -> bool {
    one.homes == other.homes
        && one.shadows == other.shadows
        && one.marks == other.marks
        && one.roles == other.roles
        && one.settled == other.settled
}

/// Whether the end words are those of a plain machine.
pub fn ends_as(alloc: Global, g: &Geometry, end: &EndWords, state: &State) -> Result<bool, Fail>
    requires { state.now.geometry ≡ g.now }
{
    let mut plain = EndWords::with_room(alloc, g)?;
    state.end_words(&mut plain);
    Ok(end_alike(end, &plain))
}
