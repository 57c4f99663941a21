//! A migrator that is resumed after its End.

ghost use Rattle.std.specs.Prelude.{◌≡◌};

use nm_action::{Heard, Tally, Turn};
use nm_actor::Actor;
use nm_base::Geometry;
use nm_migrator::MigratorActor;

/// A migrator that is resumed so often, each time when it gives End: its End is the one after that.
#[derive(Drop)]
pub(crate) struct Resumed<'a> {
    pub(crate) migrator: MigratorActor<'a>,
    /// How often it is still to be resumed.
    pub(crate) left: u32,
}

impl<'a> Actor for Resumed<'a> {
    type Made = Geometry;

    ghost use Rattle.std.specs.Prelude.{[], refl};
    ghost use Rattle.nm_migrator.specs.Parts.{migrator_made, migrator_number, worker_counted, IsNewMigrator, AgreesMigrator};

    ghost made = { λ r. (migrator_made r.migrator).0 };

    ghost geometry = { λ g. g };

    ghost number = { migrator_number };

    ghost is_new = { λ r. IsNewMigrator r.migrator };

    ghost agrees = { λ r. AgreesMigrator r.migrator };

    ghost counted = { λ r. worker_counted r.migrator.worker };

    fn next(&mut self, heard: Heard) -> Turn {
        let turn = self.migrator.next(heard);
        let Turn::End = turn else { return turn };
        if self.left == 0 {
            return turn;
        }
        self.left -= 1;
        self.migrator.resume();
        self.migrator.next(Heard::Start)
    }

    fn tally(&self) -> Tally {
        self.migrator.tally()
    }

    ghost opens = { λ r new. record { worker = record { notes = []; is = refl; next = new.worker.can; events = new.worker.events; ends = new.worker.ends; pages = new.worker.pages; drawn = new.worker.drawn; few = new.worker.few; at = new.worker.next }; part = new.part; empty = tt } };
}
