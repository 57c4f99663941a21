//! A chair over a running machine and two shared queues.

use crate::name::ArenaName;
use crate::place::Place;
use nm_action::{Action, Full, Lane, Reply};
use nm_actor::{PagePort, Stepper, Tells};
use nm_io::Gate;
use std::sync::Wait;
use std::thread;

/// The chair of an actor: its place, with a gate that is asked before each step.
#[derive(Drop)]
pub struct ArenaChair<'a, G> {
    /// The gate.
    pub gate: &'a G,
    /// The place.
    pub place: Place<'a>,
}

impl<'a, G: Gate> Tells for ArenaChair<'a, G> {
    type Name = ArenaName;

    ghost use Rattle.nm_arena_chair.specs.ChairFaces.{chair_state};

    ghost state = { λ c. chair_state c.place };
}

impl<'a, G: Gate> Stepper for ArenaChair<'a, G> {
    fn step(&mut self, action: Action) -> Reply {
        self.gate.pass(self.place.number());
        let reply = self.place.step(action);
        if awaits_another(action, reply) {
            thread::yield_now();
        }
        reply
    }
}

impl<'a, G: Gate> PagePort for ArenaChair<'a, G> {
    fn put<T: Wait>(&mut self, rt: &T, lane: Lane, page: u32) -> Result<(), Full> {
        self.place.put(rt, lane, page)
    }

    fn take<T: Wait>(&mut self, rt: &T, lane: Lane) -> Option<u32> {
        self.place.take(rt, lane)
    }
}

// Whether the actor goes on only after another did something: a word was taken, or an acknowledgement is asked for. It is a
// hint for the scheduler alone, so that many threads get on where there are few processors.
fn awaits_another(action: Action, reply: Reply) -> bool {
    matches!(reply, Reply::Busy(_)) || matches!(action, Action::SeeAck { .. })
}

fn is_sent<X: Send>(_value: &X) {}

/// Chairs may cross to other threads, which is all that this call shows.
pub fn chairs_are_sent<'a, G: Gate>(chair: &ArenaChair<'a, G>) {
    is_sent(chair);
}
