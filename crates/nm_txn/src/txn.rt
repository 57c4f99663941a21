//! The plan of a transaction.

ghost use Rattle.std.specs.Prelude.{◌≡◌};
ghost use Rattle.nm_txn.specs.Pieces.{txn_parts, IsNewTxnPiece};
ghost use Rattle.nm_txn.specs.Stages.{txn_piece, txn_word_in, end_in};

use crate::end::TxnEnd;
use nm_base::Geometry;
use nm_commit::{Decide, DecideMade, DecideRun, Decided, UnmapOne, UnmapRun};
use nm_compose::{Next, Or, Plan};
use nm_copying::{Copies, CopiesRun};
use nm_event::Spent;
use nm_prepare::{Prepare, PrepareMade, PrepareRun, Prepared};
use nm_shoot::Shoot;

/// How far a transaction has come.
#[derive(Clone, Copy, Debug, PartialEq, Eq)]
pub(crate) enum TxnStage {
    /// It has not begun.
    Idle,
    /// 1 to 6. The page is made ready.
    Preparing,
    /// 7. The first flush.
    Flushing { home: u32, frame: u32 },
    /// 8. The page is copied.
    Copying { home: u32, frame: u32 },
    /// 9. The virtual page is unmapped.
    Unmapping { home: u32, frame: u32 },
    /// 10. The second flush.
    FlushingAgain { home: u32, frame: u32, word: u64 },
    /// 11, 12. It is decided.
    Deciding { home: u32, frame: u32, word: u64 },
}

/// A piece of a transaction: the steps up to the first flush, a shootdown, the copy of the page, the unmapping, or the
/// decision.
pub type TxnPiece<'a> = Or<PrepareRun<'a>, Or<Shoot, Or<CopiesRun, Or<UnmapRun, DecideRun<'a>>>>>;

/// How a piece of a transaction ends.
pub type TxnPieceEnd = Or<Prepared, Or<u64, Or<(), Or<u64, Decided>>>>;

/// The plan of a transaction: one piece after the other.
#[derive(Clone, Copy)]
pub struct Txn<'a> {
    geometry: &'a Geometry,
    made: PrepareMade,
    stage: TxnStage,
}

impl<'a> Txn<'a> {
    /// The transaction of a page and one of its virtual pages. `spent` is what the actor has drawn.
    pub fn new(g: &'a Geometry, page: u32, vpage: u32, spent: Spent) -> Txn<'a>
        ensures geometry { result.geometry.now ≡ g.now }
        ensures made { result.made ≡ record { page = page; vpage = vpage; spent = spent } }
        ensures new { result.stage ≡ TxnStage.Idle }
    {
        Txn {
            geometry: g,
            made: PrepareMade { page, vpage, spent },
            stage: TxnStage::Idle,
        }
    }

    /// Comes to a stage, and gives its piece.
    fn go(&mut self, stage: TxnStage) -> TxnPiece<'a>
        ensures stage { self.new ≡ record self.old { stage = stage } }
        ensures made { txn_parts result ≡ txn_piece self.old.geometry.now self.old.made stage }
        ensures new { IsNewTxnPiece result }
    {
        self.stage = stage;
        let g = self.geometry;
        let PrepareMade { page, vpage, spent } = self.made;
        match stage {
            TxnStage::Idle | TxnStage::Preparing => {
                Or::This(PrepareRun::new(Prepare::new(g, page, vpage, spent)))
            }
            TxnStage::Flushing { .. } | TxnStage::FlushingAgain { .. } => {
                Or::Other(Or::This(Shoot::new(g.cpus)))
            }
            TxnStage::Copying { frame, .. } => Or::Other(Or::Other(Or::This(CopiesRun::new(
                Copies::new(g, page, frame),
            )))),
            TxnStage::Unmapping { .. } => Or::Other(Or::Other(Or::Other(Or::This(UnmapRun::new(
                UnmapOne::new(page, vpage),
            ))))),
            TxnStage::Deciding { home, frame, word } => {
                let made = DecideMade {
                    page,
                    vpage,
                    word,
                    home,
                    frame,
                };
                Or::Other(Or::Other(Or::Other(Or::Other(DecideRun::new(Decide::new(g, made))))))
            }
        }
    }
}

/// The word that the unmapping took (0 where the piece was none, of which nothing is claimed).
pub fn txn_word_in(end: TxnPieceEnd) -> u64
    ensures { result ≡ txn_word_in end }
{
    let Or::Other(end) = end else { return 0 };
    let Or::Other(end) = end else { return 0 };
    let Or::Other(end) = end else { return 0 };
    match end {
        Or::This(word) => word,
        Or::Other(_) => 0,
    }
}

/// The end of the decision (Busy where the piece was none, of which nothing is claimed).
fn end_in(end: TxnPieceEnd) -> TxnEnd
    ensures { result ≡ end_in end }
{
    let Or::Other(end) = end else {
        return TxnEnd::Busy
    };
    let Or::Other(end) = end else {
        return TxnEnd::Busy
    };
    let Or::Other(end) = end else {
        return TxnEnd::Busy
    };
    match end {
        Or::This(_) => TxnEnd::Busy,
        Or::Other(decided) => TxnEnd::of_decided(decided),
    }
}

impl<'a> Plan<TxnPiece<'a>> for Txn<'a> {
    type Outcome = TxnEnd;

    type Made = (Geometry, PrepareMade);

    ghost use Rattle.std.specs.Prelude.{◌≡◌};
    ghost use Rattle.nm_prepare.specs.Placing.{IsPlanPlaced};
    ghost use Rattle.nm_txn.specs.declared.txn.TxnStage.TheVariants.{Idle};
    ghost use Rattle.nm_txn.specs.Transactions.{IsTxn};
    ghost use Rattle.nm_txn.specs.Leaving.{MayTxn, IsTxnLeft};
    ghost use Rattle.nm_txn.specs.Stages.{txn_piece, txn_left, TxnKnown};

    ghost made = { λ s. record { 0 = s.geometry.now; 1 = s.made } };

    ghost is_new = { λ s. s.stage ≡ Idle };

    ghost may_begin = { λ made g view. MayTxn made.0 made.1 g view };

    ghost shape = { λ made g own outcome. IsTxn made.1 g own outcome };

    ghost leaves = { λ made g view outcome left. IsTxnLeft made.1 view outcome left };

    ghost knows = { λ s. IsPlanPlaced txn_piece TxnKnown s.geometry.now s.made s.stage };

    ghost left = { λ s. txn_left s.made s.stage };

    ghost ended = { λ s g outcome. Unit {0} };

    fn begin(&mut self) -> TxnPiece<'a> {
        self.go(TxnStage::Preparing)
    }

    fn go_on(&mut self, _piece: &TxnPiece<'a>, end: TxnPieceEnd) -> Next<TxnPiece<'a>, TxnEnd> {
        match self.stage {
            TxnStage::Idle => unreachable!(),
            TxnStage::Preparing => {
                let Or::This(prepared) = end else {
                    unreachable!()
                };
                match prepared {
                    Prepared::Busy => Next::Over(TxnEnd::Busy),
                    Prepared::Closed(early) => Next::Over(TxnEnd::of_early(early)),
                    Prepared::Ready { home, frame } => {
                        Next::Run(self.go(TxnStage::Flushing { home, frame }))
                    }
                }
            }
            TxnStage::Flushing { home, frame } => {
                Next::Run(self.go(TxnStage::Copying { home, frame }))
            }
            TxnStage::Copying { home, frame } => {
                Next::Run(self.go(TxnStage::Unmapping { home, frame }))
            }
            TxnStage::Unmapping { home, frame } => {
                let word = txn_word_in(end);
                Next::Run(self.go(TxnStage::FlushingAgain { home, frame, word }))
            }
            TxnStage::FlushingAgain { home, frame, word } => {
                Next::Run(self.go(TxnStage::Deciding { home, frame, word }))
            }
            TxnStage::Deciding { .. } => Next::Over(end_in(end)),
        }
    }
}
