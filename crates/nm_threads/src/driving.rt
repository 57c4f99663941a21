//! An actor that is driven to its end.

ghost use Rattle.std.specs.Prelude.{◌≡◌, false};
ghost use Rattle.nm_actor.specs.Actors.{IsPermittedTurn};
ghost use Rattle.nm_threads.specs.Driven.{IsTurnMade, IsReady, IsDriven, is_end};

use nm_actor::{Actor, PagePort, Stepper};
use nm_event::{Heard, Turn};
use std::sync::Wait;
use std::thread;

/// Makes a turn on a chair, and gives the answer. Conditions: the chair's view permits the turn, and it isn't End.
fn make<T: Wait, S: Stepper + PagePort>(rt: &T, chair: &mut S, turn: Turn) -> Heard
    requires permitted { IsPermittedTurn (S.state chair.old).geometry (S.state chair.old).view turn }
    requires acts { is_end turn ≡ false }
    ensures { IsTurnMade (S.state chair.old) turn result (S.state chair.new) }
{
    match turn {
        Turn::Do(action) => Heard::Answer(chair.step(action)),
        Turn::Put(lane, page) => match chair.put(rt, lane, page) {
            Ok(()) => Heard::PutDone,
            Err(_) => Heard::PutFull,
        },
        Turn::Take(lane) => match chair.take(rt, lane) {
            Some(page) => Heard::Took(page),
            None => Heard::TookNone,
        },
        Turn::End => unreachable!(),
    }
}

// How many turns an actor makes before its thread lets others go on.
const TURNS_AT_ONCE: u32 = 1024;

/// Counts one turn more, and lets other threads go on after so many.
fn count_turn(count: u32) -> u32 {
    let count = count.wrapping_add(1);
    if count % TURNS_AT_ONCE == 0 {
        thread::yield_now();
    }
    count
}

/// Lets an actor make its turns at a chair until it gives End. It may wait, since an actor may ask again for ever. Condition:
/// the actor is to hear Start, and what it agrees with led to the chair's view.
pub fn drive<T: Wait, A: Actor, S: Stepper + PagePort>(rt: &T, actor: &mut A, chair: &mut S)
    requires { IsReady (A.geometry (A.made actor.old)) (A.number (A.made actor.old)) (A.agrees actor.old) (S.state chair.old) }
    ensures made { A.made actor.new ≡ A.made actor.old }
    ensures driven { IsDriven (A.geometry (A.made actor.old)) (A.number (A.made actor.old)) (A.agrees actor.old) (A.agrees actor.new) (S.state chair.old) (S.state chair.new) }
{
    let mut turn = actor.next(Heard::Start);
    let mut count: u32 = 0;
    for _ in rt.forever() {
        if let Turn::End = turn {
            return;
        }
        let heard = make(rt, chair, turn);
        turn = actor.next(heard);
        count = count_turn(count);
    }
    unreachable!()
}
