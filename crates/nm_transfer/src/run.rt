//! The transfer as one part, which tells of itself by names.

ghost use Rattle.std.specs.Prelude.{◌≡◌};
ghost use Rattle.nm_transfer.specs.Stages.{IsNewTransfer};
ghost use Rattle.nm_transfer.specs.Runs.{transfer_run_made, IsNewTransferRun};

use crate::transfer::{Transfer, TransferMade, TransferPiece};
use crate::words::TakenWords;
use nm_compose::Composite;
use nm_event::{Action, Reply, Step};
use nm_part::{Part, Piece};

/// A transfer that runs.
#[derive(Drop)]
pub struct TransferRun {
    run: Composite<Transfer, TransferPiece>,
}

impl TransferRun {
    /// The transfer of this plan.
    pub fn new(plan: Transfer) -> TransferRun
        requires { IsNewTransfer plan }
        ensures made { transfer_run_made result ≡ plan.made }
        ensures new { IsNewTransferRun result }
    {
        TransferRun {
            run: Composite::new(plan),
        }
    }
}

impl Part for TransferRun {
    type Outcome = TakenWords;

    type Made = TransferMade;

    ghost use Rattle.nm_transfer.specs.Transferring.{IsTransfer};
    ghost use Rattle.nm_transfer.specs.Moving.{MayTransfer, IsTransferred};
    ghost use Rattle.nm_transfer.specs.Runs.{transfer_run_made, IsNewTransferRun, AwaitsTransferRun};

    ghost made = { transfer_run_made };

    ghost is_new = { IsNewTransferRun };

    ghost may_begin = { MayTransfer };

    ghost shape = { IsTransfer };

    ghost leaves = { λ made g view taken left. IsTransferred made g view taken left };

    ghost awaits = { AwaitsTransferRun };

    ghost ended = { λ r g own taken. Unit {0} };

    fn first(&mut self) -> Step<TakenWords> {
        Step::Do(self.start())
    }

    fn after(&mut self, reply: Reply) -> Step<TakenWords> {
        self.run.after(reply)
    }
}

impl Piece for TransferRun {
    fn start(&mut self) -> Action {
        self.run.start()
    }
}
