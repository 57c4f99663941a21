//! Any list of events, followed from the opening state: where it stops to be a run, and what holds as far as it is one.

ghost use Rattle.std.specs.Prelude.{◌≡◌, ◌<◌, ◌^◌, ◌↔◌, ◌++◌, ℕ, IsTrue, List, length};
ghost use Rattle.nm_action.specs.declared.action.Event.{Event};
ghost use Rattle.nm_view.specs.Opening.{IsActor};
ghost use Rattle.nm_core.specs.Runs.{IsStep, IsRun, after_event, state_after};
ghost use Rattle.nm_core.specs.State.{State, start};
ghost use Rattle.nm_world.specs.Laws.{AreAll};
ghost use Rattle.nm_world.specs.Seen.{world_of};
ghost use Rattle.nm_laws.specs.Facts.{HoldsOfRun};
ghost use Rattle.nm_laws.specs.Lists.{IsFirstFailure};

use nm_action::Event;
use nm_core::State;
use nm_permit::allowed;

/// How a list of events ends.
#[derive(Drop)]
pub enum RunEnd {
    /// It is a run; the state after it.
    Whole(State),
    /// The number of the first event that is no step.
    Fails(u32),
}

/// Makes the action of an event where it is permitted, and says whether the event is a step of the state. The state is
/// of use only where it is.
fn is_made(state: &mut State, event: Event) -> bool
    requires actor { IsActor state.old.geometry event.actor }
    ensures is { IsTrue result ↔ IsStep state.old event }
    ensures after { IsTrue result → state.new ≡ after_event state.old event }
{
    if !allowed(state.geometry(), state.view(event.actor), event.action) {
        return false;
    }
    state.apply(event.actor, event.action) == event.reply
}

/// Follows a list of events from the opening state. `Whole` comes exactly where the list is a run, and carries the
/// state after it. `Fails` comes exactly where some event is no step, and carries the number of the first: its actor
/// does not exist, its action is not permitted, or its reply is not the step's. The state is given up then. As
/// far as the list is a run all the groups hold, and so do the five facts: of each front of the list that is a run the accesses
/// are those of a flat memory, the transactions obey their law, and in the state after it shadows are true, the roles of frames
/// are a partition, and locks and turns are held as the views say. It takes no memory.
pub fn run_list(mut state: State, events: &[Event]) -> RunEnd
    requires opens { state ≡ start state.geometry }
    requires few { length events.now < 2 ^ 32 }
    ensures whole { (s : State) → (result ≡ RunEnd.Whole s)
        ↔ (IsRun state.geometry events.now × (s ≡ state_after state.geometry events.now)) }
    ensures fails { (i : ℕ) → (result ≡ RunEnd.Fails i) ↔ IsFirstFailure state.geometry events.now i }
    ensures lawful { (front rest : List Event) → events.now ≡ front ++ rest → IsRun state.geometry front
        → AreAll state.geometry (world_of (state_after state.geometry front)) }
    ensures facts { (front rest : List Event) → events.now ≡ front ++ rest → IsRun state.geometry front
        → HoldsOfRun state.geometry front }
{
    let actors = state.geometry().cpus + 2;
    let mut number = 0;
    for event in events {
        if event.actor >= actors || !is_made(&mut state, *event) {
            return RunEnd::Fails(number);
        }
        number += 1;
    }
    RunEnd::Whole(state)
}
