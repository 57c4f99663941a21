//! Actors at their desks.

ghost use Rattle.std.specs.Prelude.{All};
ghost use Rattle.nm_threads.specs.Desks.{IsDeskReady, IsDeskDone, HaveRun};

use crate::driving::drive;
use crate::runs::{Runs, run_all};
use nm_actor::{Actor, PagePort, Stepper};
use std::sync::Wait;
use std::thread::Threads;

/// An actor with its chair.
#[derive(Drop)]
pub struct Desk<S, A> {
    /// The chair.
    pub chair: S,
    /// The actor.
    pub actor: A,
}

impl<S: Stepper + PagePort, A: Actor> Runs for Desk<S, A> {
    ghost use Rattle.nm_threads.specs.Desks.{IsDeskReady, IsDeskDone};

    ghost can_run = { λ d. IsDeskReady A.geometry A.number (A.made d.actor) (A.agrees d.actor) (S.state d.chair) };

    ghost ran = { λ d e. IsDeskDone A.geometry A.number (A.made d.actor) (A.made e.actor) (A.agrees d.actor) (A.agrees e.actor) (S.state d.chair) (S.state e.chair) };

    fn run<T: Wait>(&mut self, rt: &T) {
        drive(rt, &mut self.actor, &mut self.chair);
    }
}

/// Lets all actors of a machine run to their ends, each on a thread of its own where threads can be made, the migrator on that of the
/// caller, and else one after another. It may wait, and takes no memory. Conditions: each actor is to hear Start, and what it agrees with led to the view of
/// its chair.
pub fn run_actors<
    T: Threads + Wait + Sync,
    S: Stepper + PagePort + Send,
    C: Actor + Send,
    M: Actor,
    R: Actor + Send,
>(rt: &T, cpus: &mut [Desk<S, C>], migrator: &mut Desk<S, M>, reclaimer: &mut Desk<S, R>)
    requires cpus { All (λ d. IsDeskReady C.geometry C.number (C.made d.actor) (C.agrees d.actor) (S.state d.chair)) cpus.old }
    requires migrator { IsDeskReady M.geometry M.number (M.made migrator.old.actor) (M.agrees migrator.old.actor) (S.state migrator.old.chair) }
    requires reclaimer { IsDeskReady R.geometry R.number (R.made reclaimer.old.actor) (R.agrees reclaimer.old.actor) (S.state reclaimer.old.chair) }
    ensures cpus { HaveRun (λ d e. IsDeskDone C.geometry C.number (C.made d.actor) (C.made e.actor) (C.agrees d.actor) (C.agrees e.actor) (S.state d.chair) (S.state e.chair)) cpus.old cpus.new }
    ensures migrator { IsDeskDone M.geometry M.number (M.made migrator.old.actor) (M.made migrator.new.actor) (M.agrees migrator.old.actor) (M.agrees migrator.new.actor) (S.state migrator.old.chair) (S.state migrator.new.chair) }
    ensures reclaimer { IsDeskDone R.geometry R.number (R.made reclaimer.old.actor) (R.made reclaimer.new.actor) (R.agrees reclaimer.old.actor) (R.agrees reclaimer.new.actor) (S.state reclaimer.old.chair) (S.state reclaimer.new.chair) }
{
    run_all(rt, cpus, reclaimer, migrator);
}
