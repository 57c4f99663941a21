//! The batch of transactions that runs.

ghost use Rattle.std.specs.Prelude.{◌≡◌, ◌≢◌, []};
ghost use Rattle.nm_batch.specs.Runs.{batch_run_made, IsNewBatchRun};

use crate::batch::{Batch, BatchAsked};
use crate::list::PieceList;
use nm_base::Geometry;
use nm_compose::Composite;
use nm_event::{Action, Reply, Step};
use nm_part::{Part, Piece};
use nm_txn::{TxnEnd, TxnPiece};

/// A batch of transactions: all that is said of it is said by what runs it.
#[derive(Drop)]
pub struct BatchRun<'a> {
    run: Composite<Batch<'a>, TxnPiece<'a>>,
}

impl<'a> BatchRun<'a> {
    /// The batch that is asked for. Condition: there is a piece.
    pub fn new(g: &'a Geometry, asked: BatchAsked) -> BatchRun<'a>
        requires { asked.pieces ≢ [] }
        ensures made { batch_run_made result ≡ record { 0 = g.now; 1 = asked } }
        ensures new { IsNewBatchRun result }
    {
        let plan = Batch::new(g, asked);
        BatchRun {
            run: Composite::new(plan),
        }
    }
}

impl<'a> Part for BatchRun<'a> {
    type Outcome = PieceList<TxnEnd>;

    type Made = (Geometry, BatchAsked);

    ghost use Rattle.nm_batch.specs.Runs.{batch_run_made, IsNewBatchRun, MayBatchRun, IsBatchRunList, BatchRunLeaves, AwaitsBatchRun};

    ghost made = { batch_run_made };

    ghost is_new = { IsNewBatchRun };

    ghost may_begin = { MayBatchRun };

    ghost shape = { IsBatchRunList };

    ghost leaves = { BatchRunLeaves };

    ghost awaits = { AwaitsBatchRun };

    ghost ended = { λ r g own ends. Unit {0} };

    fn first(&mut self) -> Step<PieceList<TxnEnd>> {
        Step::Do(self.start())
    }

    fn after(&mut self, reply: Reply) -> Step<PieceList<TxnEnd>> {
        self.run.after(reply)
    }
}

impl<'a> Piece for BatchRun<'a> {
    fn start(&mut self) -> Action {
        self.run.start()
    }
}
