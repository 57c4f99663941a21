//! Batches of transactions, as lists.

ghost use Rattle.nm_txn.specs.Batches.{IsOneTransaction};

/// A piece of a batch that is ready for the first flush.
#[derive(Clone, Copy, Debug, Default, PartialEq, Eq)]
pub struct ReadyPiece {
    /// The backing page.
    pub page: u32,
    /// The virtual page that alone has a table word.
    pub vpage: u32,
    /// The frame of the page's home.
    pub home: u32,
    /// The frame that was taken.
    pub frame: u32,
}

/// A batch of one piece has the steps of one transaction: the finished lists of the one are those of the other, and show
/// the same end.
pub fn a_batch_of_one_piece_is_one_transaction()
    ensures { IsOneTransaction }
{}
