//! The smallest actor that runs any part inside.

ghost use Rattle.std.specs.Prelude.{◌≡◌};
ghost use Rattle.nm_base.specs.Geometry.{Geometry, IsGeometry};
ghost use Rattle.nm_view.specs.Opening.{opening};
ghost use Rattle.nm_actor_rows.specs.Running.{turn_of};

use super::machine::{Line, act};
use super::parts::{Nested, OneBump};
use crate::composites::geometry;
use Line::{Gives, Other};
use nm_actor::Actor;
use nm_base::Geometry;
use nm_core::State;
use nm_event::{Action, Heard, Reply, Step, Tally, Turn};
use nm_part::Part;
use std::alloc::Global;
use std::process::Abort;
use std::test::Fail;

/// Runs a part to its end, and then gives End.
#[derive(Drop)]
struct Runner<'a, P> {
    geometry: &'a Geometry,
    number: u32,
    part: P,
    // The turn that it gave last.
    last: Option<Turn>,
}

/// The turn in which a step of a part is given.
fn turn_of<O: Drop>(step: Step<O>) -> Turn
    ensures { result ≡ turn_of step }
{
    match step {
        Step::Do(action) => Turn::Do(action),
        Step::Over(_) => Turn::End,
    }
}

impl<'a, P: Part + Drop> Actor for Runner<'a, P>
where
    P::Outcome: Drop,
{
    type Made = (Geometry, u32, P::Made);

    ghost use Rattle.std.specs.Prelude.{◌≡◌, None, refl};
    ghost use Rattle.nm_view.specs.Opening.{opening};
    ghost use Rattle.nm_actor_rows.specs.Running.{IsWaiting, IsAtStep, IsAgreedOn, no_counts};

    ghost made = { λ r. record { 0 = r.geometry.now; 1 = r.number; 2 = P.made r.part } };

    ghost geometry = { λ made. made.0 };

    ghost number = { λ made. made.1 };

    ghost is_new = { λ r. (r.last ≡ None) × P.is_new r.part × P.may_begin (P.made r.part) r.geometry.now (opening r.geometry.now r.number) };

    ghost agrees = { λ r turns last. IsAgreedOn
        (IsWaiting (P.is_new r.part) (P.may_begin (P.made r.part)) r.geometry.now r.number turns)
        (IsAtStep (P.awaits r.part) (P.shape (P.made r.part)) (P.leaves (P.made r.part)) (P.ended r.part) r.geometry.now r.number turns)
        r.last last };

    ghost counted = { λ r. no_counts };

    fn next(&mut self, heard: Heard) -> Turn {
        let step = match heard {
            Heard::Start => self.part.first(),
            Heard::Answer(reply) => self.part.after(reply),
            _ => unreachable!(),
        };
        let turn = turn_of(step);
        self.last = Some(turn);
        turn
    }

    fn tally(&self) -> Tally {
        Tally::default()
    }

    ghost opens = { λ r new. record { same = new.0; by = record { part = new.1; begin = new.2; none = refl } } };
}

/// Runs an actor of a machine with a part inside, as a table says. Conditions: the part has given no action yet, and it may
/// begin in the opening view of actor 1.
fn run<P: Part + Drop>(rt: &impl Abort, alloc: Global, part: P, lines: &[Line]) -> Result<(), Fail>
where
    P::Outcome: Drop,
    requires new { P.is_new part }
    requires begin { (g : Geometry) → IsGeometry g → P.may_begin (P.made part) g (opening g 1) }
{
    let g = geometry(alloc)?;
    let mut state = State::start(alloc, &g)?;
    let mut actor = Runner {
        geometry: &g,
        number: 1,
        part,
        last: None,
    };
    act(rt, &mut state, 1, &mut actor, lines);
    assert!(rt; actor.last == Some(Turn::End) && actor.tally() == Tally::default());
    Ok(())
}

#[test]
fn an_actor_runs_a_part(rt: HostRuntime) -> Result<(), Fail> {
    // The reclaimer has drawn a number before.
    let lines = [Other(2, Action::Bump), Gives(Action::Bump, Reply::Word(1))];
    run(&rt, rt.alloc(), OneBump { asked: false }, &lines)
}

#[test]
fn an_actor_runs_a_part_inside_a_part(rt: HostRuntime) -> Result<(), Fail> {
    let part = Nested {
        vpage: 0,
        inner: OneBump { asked: false },
        inside: false,
    };
    let lines = [
        Gives(Action::Look { vpage: 0 }, Reply::Word(0)),
        Gives(Action::Bump, Reply::Word(0)),
    ];
    run(&rt, rt.alloc(), part, &lines)
}
