//! A watcher of a run that counts its slow accesses.

ghost use Rattle.std.specs.Prelude.{◌≡◌, []};
ghost use Rattle.nm_base.specs.Geometry.{Geometry};
ghost use Rattle.nm_lab_counter.specs.Counts.{IsCount, slow_turn, when_told, when_word};

use nm_action::{Event, Heard, Reply, Turn};
use nm_core::State;
use nm_lab::slow_access;
use nm_play::Watcher;
use nm_schedule::Played;
use std::alloc::AllocError;

/// Counts the slow accesses of a run: its loads, stores and adds at which the home of the page is outside the fastest tier.
/// It keeps two numbers, however long the run is.
#[derive(Debug, Drop)]
pub struct SlowCounter {
    /// How many there were so far.
    pub slow: u64,
    next: u64,
}

impl SlowCounter {
    /// Has counted none.
    pub fn new() -> SlowCounter
        ensures { (g : Geometry) → IsCount result.slow g [] }
    {
        SlowCounter { slow: 0, next: 0 }
    }
}

impl Watcher for SlowCounter {
    ghost use Rattle.nm_lab_counter.specs.Counts.{IsCount, IsSeen};

    ghost kept = { λ c g played. IsCount c.slow g played };

    ghost seen = { λ c g played actor turn. IsSeen c.slow c.next g played actor turn };

    fn sees(&mut self, state: &State, actor: u32, turn: Turn) -> Result<(), AllocError> {
        self.next = slow_turn(state, actor, turn);
        Ok(())
    }

    fn hears(&mut self, played: Played) -> Result<(), AllocError> {
        let added = when_told(played.heard, self.next);
        self.slow = self.slow.saturating_add(added);
        Ok(())
    }
}

/// 1 where a turn is a slow access in this state of the machine, if it is answered by a word.
fn slow_turn(state: &State, actor: u32, turn: Turn) -> u64
    ensures { result ≡ slow_turn state.now actor turn }
{
    match turn {
        Turn::Do(action) => slow_access(
            state,
            Event {
                actor,
                action,
                reply: Reply::Word(0),
            },
        ),
        _ => 0,
    }
}

/// What is added at a turn that was answered so.
fn when_told(heard: Heard, next: u64) -> u64
    ensures { result ≡ when_told heard next }
{
    match heard {
        Heard::Answer(reply) => when_word(reply, next),
        _ => 0,
    }
}

/// What is added at an action with this reply.
fn when_word(reply: Reply, next: u64) -> u64
    ensures { result ≡ when_word reply next }
{
    match reply {
        Reply::Word(_) => next,
        _ => 0,
    }
}
