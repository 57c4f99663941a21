//! The migrator.

ghost use Rattle.std.specs.Prelude.{◌≡◌, ◌+◌, IfOk, Some, None};
ghost use Rattle.nm_action.specs.declared.turn.Turn.TheVariants as turn;
ghost use Rattle.nm_actor.specs.Turns.{Turns};
ghost use Rattle.nm_worker.specs.Workers.{HasGivenEnd};
ghost use Rattle.nm_migrator.specs.Parts.{migrator_made, worker_counted, IsNewMigrator, AgreesMigrator};

use crate::migrating::Migrating;
use nm_actor::Actor;
use nm_base::Geometry;
use nm_event::{Heard, Tally, Turn};
use nm_migrator_work::MigratorPiece;
use nm_worker::Worker;
use std::alloc::{AllocError, Global};

/// The worker that follows the migrator's routine.
pub type MigratorWorker<'a> = Worker<Migrating<'a>, MigratorPiece<'a>>;

/// The migrator: the actor that judges candidates and moves pending pages to faster tiers. It ends where all processors have
/// ended and no page is a candidate or pending.
#[derive(Drop)]
pub struct MigratorActor<'a> {
    worker: MigratorWorker<'a>,
}

impl<'a> MigratorActor<'a> {
    /// The migrator of a geometry. With a retry, a page whose transaction was so often aborted moves while it is locked. The only
    /// error is want of memory; no other call takes memory.
    pub fn new(
        alloc: Global,
        g: &'a Geometry,
        retry: Option<u32>,
    ) -> Result<MigratorActor<'a>, AllocError>
        ensures made { IfOk result (λ a. migrator_made a ≡ record { 0 = g.now; 1 = retry; 2 = 0 }) }
        ensures new { IfOk result IsNewMigrator }
    {
        let routine = Migrating::new(alloc, g, retry)?;
        Ok(MigratorActor {
            worker: Worker::new(alloc, g, routine)?,
        })
    }

    /// Begins again after it gave End, from the taking of candidates on: the next call of `next` hears Start. The migrator keeps its
    /// tally, each page's count of aborts, and what it has drawn. It takes no memory. Condition: the migrator gave End.
    pub fn resume(&mut self)
        requires { HasGivenEnd (AgreesMigrator self.old) }
        ensures made { migrator_made self.new ≡ record { 0 = (migrator_made self.old).0; 1 = (migrator_made self.old).1; 2 = (migrator_made self.old).2 + 1 } }
        ensures tally { worker_counted self.new.worker ≡ worker_counted self.old.worker }
        ensures agrees { (turns : Turns) → AgreesMigrator self.old turns (Some turn.End) → AgreesMigrator self.new turns None }
    {
        self.worker.resume();
    }
}

impl<'a> Actor for MigratorActor<'a> {
    type Made = (Geometry, Option<u32>, u64);

    ghost use Rattle.std.specs.Prelude.{[], refl};
    ghost use Rattle.nm_migrator.specs.Parts.{migrator_made, migrator_number, worker_counted, IsNewMigrator, AgreesMigrator};

    ghost made = { migrator_made };

    ghost geometry = { λ made. made.0 };

    ghost number = { λ made. migrator_number made.0 };

    ghost is_new = { IsNewMigrator };

    ghost agrees = { AgreesMigrator };

    ghost counted = { λ a. worker_counted a.worker };

    fn next(&mut self, heard: Heard) -> Turn {
        self.worker.next(heard)
    }

    fn tally(&self) -> Tally {
        self.worker.tally()
    }

    ghost opens = { λ a new. record { worker = record { notes = []; is = refl; next = new.worker.can; events = new.worker.events; ends = new.worker.ends; pages = new.worker.pages; drawn = new.worker.drawn; few = new.worker.few; at = new.worker.next }; part = new.part; empty = tt } };
}
