//! The migrator begins again.

use crate::resuming::Resumes;
use nm_migrator::MigratorActor;

impl<'a> Resumes for MigratorActor<'a> {
    ghost use Rattle.std.specs.Prelude.{◌+◌};

    ghost resumed = { λ made. record { 0 = made.0; 1 = made.1; 2 = made.2 + 1 } };

    fn resume(&mut self) {
        MigratorActor::resume(self);
    }
}
