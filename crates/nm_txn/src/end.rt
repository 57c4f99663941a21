//! How a transaction ends.

ghost use Rattle.std.specs.Prelude.{◌≡◌};
ghost use Rattle.nm_txn.specs.Transactions.{early_end, decided_end};

use nm_commit::Decided;
use nm_prepare::Early;

/// The outcome of a transaction.
#[derive(Clone, Copy, Debug, Default, PartialEq, Eq)]
pub enum TxnEnd {
    /// The word that was taken was clean: the page has its new home, its old home is the shadow, and the table word maps it.
    Committed,
    /// The word that was taken, this one, was dirty, and stands again in the table.
    Aborted(u64),
    /// So many frames of the next faster tier were free, which is no more than its watermark `min`.
    NoFrame(u32),
    /// Under the lock the page had no home, or one in tier 0, or not the one virtual page alone had a table word.
    Gone,
    /// The actor had made at least 2^56 - 1 bumps, or at least 2^59 - 8,192 raises.
    Worn,
    /// The page's lock was held.
    #[default]
    Busy,
}

impl TxnEnd {
    /// The end of a transaction that ends before its first flush.
    pub fn of_early(early: Early) -> TxnEnd
        ensures { result ≡ early_end early }
    {
        match early {
            Early::NoFrame(n) => TxnEnd::NoFrame(n),
            Early::Gone => TxnEnd::Gone,
            Early::Worn => TxnEnd::Worn,
        }
    }

    /// The end of a transaction that was decided.
    pub fn of_decided(decided: Decided) -> TxnEnd
        ensures { result ≡ decided_end decided }
    {
        match decided {
            Decided::Committed => TxnEnd::Committed,
            Decided::Aborted(word) => TxnEnd::Aborted(word),
        }
    }
}
