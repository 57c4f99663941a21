//! The plan of a batch.

ghost use Rattle.std.specs.Prelude.{◌≡◌, ◌<◌, ◌++◌, ◌∷◌, [], length};
ghost use Rattle.nm_batch.specs.Leaving.{most_pieces};
ghost use Rattle.nm_txn.specs.Batches.{ends_of};
ghost use Rattle.nm_txn.specs.Pieces.{txn_parts, IsNewTxnPiece};
ghost use Rattle.nm_batch.specs.Places.{batch_made, new_batch_place, batch_piece, piece_noted, CanNotePiece, decided_in, prepare_stage, copy_stage, unmap_stage, decide_stage, IsBatchStep};

use crate::list::PieceList;
use nm_base::Geometry;
use nm_commit::{Decide, DecideMade, DecideRun, Decided, UnmapOne, UnmapRun};
use nm_compose::{Next, Or, Plan};
use nm_copying::{Copies, CopiesRun};
use nm_event::Spent;
use nm_prepare::{Prepare, PrepareRun, Prepared};
use nm_shoot::Shoot;
use nm_txn::{ReadyPiece, TxnEnd, TxnPiece, TxnPieceEnd, txn_word_in};

/// What a batch is begun with.
#[derive(Drop)]
pub struct BatchAsked {
    /// The pieces, at most 8: pages, each with the virtual page that alone is to have a table word. No page stands twice.
    pub pieces: PieceList<(u32, u32)>,
    /// How many bumps and raises the actor has made before.
    pub spent: Spent,
}

/// How far a batch has come.
#[derive(Clone, Copy, Debug, PartialEq, Eq)]
pub(crate) enum BatchStage {
    /// It has not begun.
    Idle,
    /// 1. The next piece is prepared.
    Preparing { page: u32, vpage: u32 },
    /// 3. The first flush.
    Flushing,
    /// 4. The page of the ready piece at this place is copied.
    Copying { index: usize, piece: ReadyPiece },
    /// 5. The virtual page of the next ready piece is unmapped.
    Unmapping(ReadyPiece),
    /// 6. The second flush.
    FlushingAgain,
    /// 7. The next ready piece is decided.
    Deciding(DecideMade),
}

/// How far a batch has come, and what came of its pieces so far.
#[derive(Drop)]
pub(crate) struct BatchPlace {
    stage: BatchStage,
    /// What the actor has drawn so far.
    drawn: Spent,
    /// How each piece was prepared, in order.
    prepared: PieceList<Prepared>,
    /// The pieces that are ready, in order.
    ready: PieceList<ReadyPiece>,
    /// The words of these that were taken, in order.
    words: PieceList<u64>,
    /// How these were decided, in order.
    decided: PieceList<Decided>,
}

/// The plan of a batch: the pieces go through the steps of a transaction together.
#[derive(Drop)]
pub struct Batch<'a> {
    geometry: &'a Geometry,
    asked: BatchAsked,
    place: BatchPlace,
}

impl<'a> Batch<'a> {
    /// The batch of these pieces.
    pub fn new(g: &'a Geometry, asked: BatchAsked) -> Batch<'a>
        ensures geometry { result.geometry.now ≡ g.now }
        ensures asked { result.asked ≡ asked }
        ensures new { result.place ≡ new_batch_place asked.spent }
    {
        let drawn = asked.spent;
        Batch {
            geometry: g,
            asked,
            place: BatchPlace {
                stage: BatchStage::Idle,
                drawn,
                prepared: PieceList::new(),
                ready: PieceList::new(),
                words: PieceList::new(),
                decided: PieceList::new(),
            },
        }
    }

    /// Comes to a stage, and gives its piece.
    fn go(&mut self, stage: BatchStage) -> TxnPiece<'a>
        ensures stage { self.new ≡ record self.old { place = record self.old.place { stage = stage } } }
        ensures made { txn_parts result ≡ batch_piece self.old.geometry.now self.old.place.drawn stage }
        ensures new { IsNewTxnPiece result }
    {
        self.place.stage = stage;
        let g = self.geometry;
        let spent = self.place.drawn;
        match stage {
            BatchStage::Idle => Or::This(PrepareRun::new(Prepare::new(g, 0, 0, spent))),
            BatchStage::Preparing { page, vpage } => {
                Or::This(PrepareRun::new(Prepare::new(g, page, vpage, spent)))
            }
            BatchStage::Flushing | BatchStage::FlushingAgain => {
                Or::Other(Or::This(Shoot::new(g.cpus)))
            }
            BatchStage::Copying { piece, .. } => Or::Other(Or::Other(Or::This(CopiesRun::new(
                Copies::new(g, piece.page, piece.frame),
            )))),
            BatchStage::Unmapping(piece) => Or::Other(Or::Other(Or::Other(Or::This(UnmapRun::new(
                UnmapOne::new(piece.page, piece.vpage),
            ))))),
            BatchStage::Deciding(made) => {
                Or::Other(Or::Other(Or::Other(Or::Other(DecideRun::new(Decide::new(g, made))))))
            }
        }
    }

    /// Notes how the next piece was prepared.
    fn note(&mut self, page: u32, vpage: u32, prepared: Prepared)
        requires { CanNotePiece self.old.place prepared }
        ensures { self.new ≡ record self.old { place = piece_noted page vpage prepared self.old.place } }
    {
        self.place.prepared.push(prepared);
        match prepared {
            Prepared::Busy | Prepared::Closed(_) => {}
            Prepared::Ready { home, frame } => {
                self.place.ready.push(ReadyPiece {
                    page,
                    vpage,
                    home,
                    frame,
                });
                self.place.drawn.raises += 1;
            }
        }
    }

    /// Notes the word that was taken of the next ready piece. Condition: there are fewer than 8.
    fn note_word(&mut self, word: u64)
        requires { length self.old.place.words < most_pieces }
        ensures { self.new ≡ record self.old { place = record self.old.place { words = self.old.place.words ++ word ∷ [] } } }
    {
        self.place.words.push(word);
    }

    /// Notes how the next ready piece was decided. Condition: there are fewer than 8.
    fn note_decided(&mut self, decided: Decided)
        requires { length self.old.place.decided < most_pieces }
        ensures { self.new ≡ record self.old { place = record self.old.place { decided = self.old.place.decided ++ decided ∷ [] } } }
    {
        self.place.decided.push(decided);
    }

    /// The stage in which the next piece is prepared; where there is none, the first flush, if a piece is ready.
    fn prepare_stage(&self) -> Option<BatchStage>
        ensures { result ≡ prepare_stage (batch_made self.now.asked) self.now.place }
    {
        match self.asked.pieces.get(self.place.prepared.len()) {
            Some((page, vpage)) => Some(BatchStage::Preparing { page, vpage }),
            None => match self.place.ready.get(0) {
                Some(_) => Some(BatchStage::Flushing),
                None => None,
            },
        }
    }

    /// The stage in which the ready piece at a place is copied; where there is none, the first one is unmapped.
    fn copy_stage(&self, index: usize) -> Option<BatchStage>
        ensures { result ≡ copy_stage self.now.place index }
    {
        match self.place.ready.get(index) {
            Some(piece) => Some(BatchStage::Copying { index, piece }),
            None => self.unmap_stage(),
        }
    }

    /// The stage in which the next ready piece is unmapped; where there is none, the second flush.
    fn unmap_stage(&self) -> Option<BatchStage>
        ensures { result ≡ unmap_stage self.now.place }
    {
        match self.place.ready.get(self.place.words.len()) {
            Some(piece) => Some(BatchStage::Unmapping(piece)),
            None => Some(BatchStage::FlushingAgain),
        }
    }

    /// The stage in which the next ready piece is decided, if there is one.
    fn decide_stage(&self) -> Option<BatchStage>
        ensures { result ≡ decide_stage self.now.place }
    {
        let next = self.place.decided.len();
        match self.place.ready.get(next) {
            None => None,
            Some(piece) => match self.place.words.get(next) {
                None => None,
                Some(word) => Some(BatchStage::Deciding(DecideMade {
                    page: piece.page,
                    vpage: piece.vpage,
                    word,
                    home: piece.home,
                    frame: piece.frame,
                })),
            },
        }
    }

    /// Comes to this stage, or is over where there is none.
    fn step(&mut self, stage: Option<BatchStage>) -> Next<TxnPiece<'a>, PieceList<TxnEnd>>
        ensures { IsBatchStep self.old stage self.new result }
    {
        match stage {
            Some(stage) => Next::Run(self.go(stage)),
            None => Next::Over(ends_of(&self.place.prepared, &self.place.decided)),
        }
    }
}

/// The ends of all pieces, in order: those that ended early as they ended, and the ready ones as they were decided.
pub fn ends_of(prepared: &PieceList<Prepared>, decided: &PieceList<Decided>) -> PieceList<TxnEnd>
    ensures { result ≡ ends_of prepared.now decided.now }
{
    let mut ends = PieceList::new();
    let mut next = 0;
    for index in 0..prepared.len() {
        match prepared.get(index) {
            None => return ends,
            Some(prepared) => match prepared {
                Prepared::Busy => ends.push(TxnEnd::Busy),
                Prepared::Closed(early) => ends.push(TxnEnd::of_early(early)),
                Prepared::Ready { .. } => match decided.get(next) {
                    None => return ends,
                    Some(end) => {
                        ends.push(TxnEnd::of_decided(end));
                        next += 1;
                    }
                },
            },
        }
    }
    ends
}

/// How a piece was decided (Committed where the piece of the plan was no decision, of which nothing is claimed).
fn decided_in(end: TxnPieceEnd) -> Decided
    ensures { result ≡ decided_in end }
{
    let Or::Other(end) = end else {
        return Decided::Committed
    };
    let Or::Other(end) = end else {
        return Decided::Committed
    };
    let Or::Other(end) = end else {
        return Decided::Committed
    };
    match end {
        Or::This(_) => Decided::Committed,
        Or::Other(decided) => decided,
    }
}

impl<'a> Plan<TxnPiece<'a>> for Batch<'a> {
    type Outcome = PieceList<TxnEnd>;

    type Made = (Geometry, BatchAsked);

    ghost use Rattle.nm_prepare.specs.Placing.{IsPlanPlaced};
    ghost use Rattle.nm_txn.specs.Batches.{IsBatch};
    ghost use Rattle.nm_batch.specs.Leaving.{MayBatch, IsBatchLeft};
    ghost use Rattle.nm_batch.specs.Places.{batch_made, IsNewBatch, batch_piece_at, batch_left};
    ghost use Rattle.nm_batch.specs.Opened.{BatchKnown};

    ghost made = { λ s. record { 0 = s.geometry.now; 1 = s.asked } };

    ghost is_new = { IsNewBatch };

    ghost may_begin = { λ made g view. MayBatch made.0 (batch_made made.1) g view };

    ghost shape = { λ made g own ends. IsBatch (batch_made made.1) g own ends };

    ghost leaves = { λ made g view ends left. IsBatchLeft (batch_made made.1) view ends left };

    ghost knows = { λ s. IsPlanPlaced batch_piece_at BatchKnown s.geometry.now (batch_made s.asked) s.place };

    ghost left = { λ s. batch_left (batch_made s.asked) s.place };

    ghost ended = { λ s g ends. Unit {0} };

    fn begin(&mut self) -> TxnPiece<'a> {
        match self.asked.pieces.get(0) {
            Some((page, vpage)) => self.go(BatchStage::Preparing { page, vpage }),
            None => unreachable!(),
        }
    }

    fn go_on(
        &mut self,
        _piece: &TxnPiece<'a>,
        end: TxnPieceEnd,
    ) -> Next<TxnPiece<'a>, PieceList<TxnEnd>> {
        match self.place.stage {
            BatchStage::Idle => unreachable!(),
            BatchStage::Preparing { page, vpage } => {
                let Or::This(prepared) = end else {
                    unreachable!()
                };
                self.note(page, vpage, prepared);
                let stage = self.prepare_stage();
                self.step(stage)
            }
            BatchStage::Flushing => {
                let stage = self.copy_stage(0);
                self.step(stage)
            }
            BatchStage::Copying { index, .. } => {
                let stage = self.copy_stage(index + 1);
                self.step(stage)
            }
            BatchStage::Unmapping(_) => {
                self.note_word(txn_word_in(end));
                let stage = self.unmap_stage();
                self.step(stage)
            }
            BatchStage::FlushingAgain => {
                let stage = self.decide_stage();
                self.step(stage)
            }
            BatchStage::Deciding(_) => {
                self.note_decided(decided_in(end));
                let stage = self.decide_stage();
                self.step(stage)
            }
        }
    }
}
