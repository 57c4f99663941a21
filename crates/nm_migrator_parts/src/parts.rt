//! The larger parts of the migrator's work: each tells of itself by names.

ghost use Rattle.std.specs.Prelude.{◌≡◌, ◌≢◌, []};
ghost use Rattle.nm_migrator_parts.specs.Wrapped.{batch_work_made, IsNewBatchWork, move_work_made, IsNewMoveWork};

use nm_base::Geometry;
use nm_batch::{BatchAsked, BatchRun, PieceList};
use nm_drawing::{Drawing, Drawn};
use nm_event::{Action, Reply, Spent, Step};
use nm_locked::{ChooseMade, LockedOver};
use nm_locked_run::LockedRun;
use nm_part::{Part, Piece};
use nm_transfer::TakenWords;
use nm_txn::TxnEnd;

/// A batch of transactions, as a part that tells what it has drawn.
#[derive(Drop)]
pub struct BatchWork<'a> {
    run: Drawing<BatchRun<'a>>,
}

/// A locked move, as a part that tells what it has drawn.
#[derive(Drop)]
pub struct MoveWork<'a> {
    run: Drawing<LockedRun<'a>>,
}

impl<'a> BatchWork<'a> {
    /// The batch of these pieces, by an actor that has drawn so much. Condition: there is a piece.
    pub fn new(g: &'a Geometry, pieces: PieceList<(u32, u32)>, spent: Spent) -> BatchWork<'a>
        requires { pieces ≢ [] }
        ensures made { batch_work_made result ≡ record { 0 = record { 0 = g.now; 1 = record { pieces = pieces; spent = spent } }; 1 = spent } }
        ensures new { IsNewBatchWork result }
    {
        let run = BatchRun::new(g, BatchAsked { pieces, spent });
        BatchWork {
            run: Drawing::new(run, spent),
        }
    }
}

impl<'a> MoveWork<'a> {
    /// The locked move of a page with this count, by an actor that has drawn so much.
    pub fn new(
        g: &'a Geometry,
        page: u32,
        count: u32,
        spent: Spent,
        taken: TakenWords,
    ) -> MoveWork<'a>
        ensures made { move_work_made result ≡ record { 0 = record { 0 = g.now; 1 = record { page = page; count = count; spent = spent } }; 1 = spent } }
        ensures new { IsNewMoveWork result }
    {
        let run = LockedRun::new(g, ChooseMade { page, count, spent }, taken);
        MoveWork {
            run: Drawing::new(run, spent),
        }
    }
}

impl<'a> Part for BatchWork<'a> {
    type Outcome = Drawn<PieceList<TxnEnd>>;

    type Made = ((Geometry, BatchAsked), Spent);

    ghost use Rattle.nm_migrator_parts.specs.Wrapped.{batch_work_made, IsNewBatchWork, MayBatchWork, IsBatchWork, BatchWorkLeaves, AwaitsBatchWork};

    ghost made = { batch_work_made };

    ghost is_new = { IsNewBatchWork };

    ghost may_begin = { MayBatchWork };

    ghost shape = { IsBatchWork };

    ghost leaves = { BatchWorkLeaves };

    ghost awaits = { AwaitsBatchWork };

    ghost ended = { λ w g own end. Unit {0} };

    fn first(&mut self) -> Step<Drawn<PieceList<TxnEnd>>> {
        Step::Do(self.start())
    }

    fn after(&mut self, reply: Reply) -> Step<Drawn<PieceList<TxnEnd>>> {
        self.run.after(reply)
    }
}

impl<'a> Piece for BatchWork<'a> {
    fn start(&mut self) -> Action {
        self.run.start()
    }
}

impl<'a> Part for MoveWork<'a> {
    type Outcome = Drawn<LockedOver>;

    type Made = ((Geometry, ChooseMade), Spent);

    ghost use Rattle.nm_migrator_parts.specs.Wrapped.{move_work_made, IsNewMoveWork, MayMoveWork, IsMoveWork, MoveWorkLeaves, AwaitsMoveWork};

    ghost made = { move_work_made };

    ghost is_new = { IsNewMoveWork };

    ghost may_begin = { MayMoveWork };

    ghost shape = { IsMoveWork };

    ghost leaves = { MoveWorkLeaves };

    ghost awaits = { AwaitsMoveWork };

    ghost ended = { λ w g own end. Unit {0} };

    fn first(&mut self) -> Step<Drawn<LockedOver>> {
        Step::Do(self.start())
    }

    fn after(&mut self, reply: Reply) -> Step<Drawn<LockedOver>> {
        self.run.after(reply)
    }
}

impl<'a> Piece for MoveWork<'a> {
    fn start(&mut self) -> Action {
        self.run.start()
    }
}
