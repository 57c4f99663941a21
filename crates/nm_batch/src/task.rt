//! The batch as a part of an actor's work.

ghost use Rattle.std.specs.Prelude.{◌≡◌, ◌≢◌, ◌+◌, ◌<◌, ◌≤◌, [], ◌∷◌, length, drop, IfOk};
ghost use Rattle.nm_batch.specs.Leaving.{most_pieces};
ghost use Rattle.nm_batch.specs.Tasks.{batch_of, IsNewBatchTask};

use crate::batch::BatchAsked;
use crate::list::PieceList;
use crate::run::BatchRun;
use nm_base::Geometry;
use nm_event::{Action, Reply, Spent, Step};
use nm_part::{Part, Piece};
use nm_txn::TxnEnd;
use std::alloc::{AllocError, Global};

/// A batch of transactions: up to 8 pages, each with one of its virtual pages, are moved to the next faster tier together,
/// and share the two flushes. A piece that ends early takes no part in the rest. It is begun once for each batch.
#[derive(Drop)]
pub struct BatchTask<'a> {
    geometry: &'a Geometry,
    run: BatchRun<'a>,
    ends: Box<PieceList<TxnEnd>>,
}

impl<'a> BatchTask<'a> {
    /// A task for batches of this geometry. It is as one that was begun with page 0 and virtual page 0 by an actor that has
    /// drawn nothing. The only error is want of memory.
    pub fn new(alloc: Global, g: &'a Geometry) -> Result<BatchTask<'a>, AllocError>
        ensures geometry { IfOk result (λ t. t.geometry.now ≡ g.now) }
        ensures made { IfOk result (λ t. batch_of t ≡ record { 0 = g.now; 1 = record { pieces = (0, 0) ∷ []; spent = record { bumps = 0; raises = 0 } } }) }
        ensures new { IfOk result IsNewBatchTask }
    {
        let asked = BatchAsked {
            pieces: PieceList::of(&[(0, 0)]),
            spent: Spent::default(),
        };
        let ends = Box::new(alloc, PieceList::new())?;
        Ok(BatchTask {
            geometry: g,
            run: BatchRun::new(g, asked),
            ends,
        })
    }

    /// Begins a batch of these pieces: pages, each with a virtual page. Conditions: there are 1 to 8. Where its first step is
    /// given the pages are there and no page stands twice, the view has no open operation and holds no turn, and `spent` is
    /// what the view has made. It takes no memory.
    pub fn begin(&mut self, spent: Spent, pieces: &[(u32, u32)])
        requires some { pieces.now ≢ [] }
        requires few { length pieces.now ≤ most_pieces }
        ensures geometry { self.new.geometry.now ≡ self.old.geometry.now }
        ensures made { batch_of self.new ≡ record { 0 = self.old.geometry.now; 1 = record { pieces = pieces.now; spent = spent } } }
        ensures new { IsNewBatchTask self.new }
    {
        let asked = BatchAsked {
            pieces: PieceList::of(pieces),
            spent,
        };
        self.run = BatchRun::new(self.geometry, asked);
    }

    /// How a piece has ended, counted from 0. Conditions: the batch is over, and there are more than so many pieces.
    pub fn end_of(&self, i: u32) -> TxnEnd
        requires { i < length self.now.ends.value }
        ensures { drop i self.now.ends.value ≡ result ∷ drop (i + 1) self.now.ends.value }
    {
        match self.ends.get(i as usize) {
            Some(end) => end,
            None => unreachable!(),
        }
    }
}

impl<'a> Part for BatchTask<'a> {
    type Outcome = u32;

    type Made = (Geometry, BatchAsked);

    ghost use Rattle.nm_batch.specs.Places.{batch_made};
    ghost use Rattle.nm_batch.specs.Runs.{MayBatchRun};
    ghost use Rattle.nm_batch.specs.Tasks.{batch_of, IsNewBatchTask, AwaitsBatchTask, HasBatchEnds, IsBatchTaskLeft, IsToldEnds};

    ghost made = { batch_of };

    ghost is_new = { IsNewBatchTask };

    ghost may_begin = { MayBatchRun };

    ghost shape = { λ made g own count. HasBatchEnds (batch_made made.1) g own count };

    ghost leaves = { λ made g view count left. IsBatchTaskLeft (batch_made made.1) view count left };

    ghost awaits = { AwaitsBatchTask };

    ghost ended = { λ t g own count. IsToldEnds (batch_made (batch_of t).1) t.ends.value g own count };

    fn first(&mut self) -> Step<u32> {
        Step::Do(self.start())
    }

    fn after(&mut self, reply: Reply) -> Step<u32> {
        match self.run.after(reply) {
            Step::Do(action) => Step::Do(action),
            Step::Over(ends) => {
                let count = ends.len() as u32;
                *self.ends = ends;
                Step::Over(count)
            }
        }
    }
}

impl<'a> Piece for BatchTask<'a> {
    fn start(&mut self) -> Action {
        self.run.start()
    }
}
