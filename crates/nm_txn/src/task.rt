//! The transaction as a part of an actor's work.

ghost use Rattle.std.specs.Prelude.{◌≡◌};
ghost use Rattle.nm_txn.specs.Tasks.{txn_of, IsNewTxn};

use crate::end::TxnEnd;
use crate::txn::{Txn, TxnPiece};
use nm_base::Geometry;
use nm_compose::Composite;
use nm_event::{Action, Reply, Spent, Step};
use nm_part::{Part, Piece};
use nm_prepare::PrepareMade;

/// A transaction of a page and one of its virtual pages. It moves the page to the next faster tier where the page has one
/// table word alone; it copies the page while processors go on with it, and gives the move up where the page was written
/// meanwhile. It is begun once for each transaction, and takes no memory.
#[derive(Drop)]
pub struct TxnTask<'a> {
    geometry: &'a Geometry,
    run: Composite<Txn<'a>, TxnPiece<'a>>,
}

impl<'a> TxnTask<'a> {
    /// A task for transactions of this geometry. It is as one that was begun with page 0 and virtual page 0 by an actor that
    /// has drawn nothing.
    pub fn new(g: &'a Geometry) -> TxnTask<'a>
        ensures geometry { result.geometry.now ≡ g.now }
        ensures made { txn_of result ≡ record { 0 = g.now; 1 = record { page = 0; vpage = 0; spent = record { bumps = 0; raises = 0 } } } }
        ensures new { IsNewTxn result }
    {
        TxnTask {
            geometry: g,
            run: Composite::new(Txn::new(g, 0, 0, Spent::default())),
        }
    }

    /// Begins a transaction of a page and a virtual page. Where its first step is given the page is there, the view has no
    /// open operation and holds no turn, and `spent` is what the view has made.
    pub fn begin(&mut self, spent: Spent, page: u32, v: u32)
        ensures geometry { self.new.geometry.now ≡ self.old.geometry.now }
        ensures made { txn_of self.new ≡ record { 0 = self.old.geometry.now; 1 = record { page = page; vpage = v; spent = spent } } }
        ensures new { IsNewTxn self.new }
    {
        self.run = Composite::new(Txn::new(self.geometry, page, v, spent));
    }
}

impl<'a> Part for TxnTask<'a> {
    type Outcome = TxnEnd;

    type Made = (Geometry, PrepareMade);

    ghost use Rattle.nm_part.specs.Parts.{NothingTold};
    ghost use Rattle.nm_txn.specs.Transactions.{IsTxn};
    ghost use Rattle.nm_txn.specs.Leaving.{MayTxn, IsTxnLeft};
    ghost use Rattle.nm_txn.specs.Tasks.{txn_of, IsNewTxn, AwaitsTxn};

    ghost made = { txn_of };

    ghost is_new = { IsNewTxn };

    ghost may_begin = { λ made g view. MayTxn made.0 made.1 g view };

    ghost shape = { λ made g own outcome. IsTxn made.1 g own outcome };

    ghost leaves = { λ made g view outcome left. IsTxnLeft made.1 view outcome left };

    ghost awaits = { AwaitsTxn };

    ghost ended = { λ t. NothingTold };

    fn first(&mut self) -> Step<TxnEnd> {
        self.run.first()
    }

    fn after(&mut self, reply: Reply) -> Step<TxnEnd> {
        self.run.after(reply)
    }
}

impl<'a> Piece for TxnTask<'a> {
    fn start(&mut self) -> Action {
        self.run.start()
    }
}
