//! Counts of what the actors did.

ghost use Rattle.std.specs.Prelude.{◌≡◌};
ghost use Rattle.nm_action.specs.Tally.{sum_of, capped_sum};

/// Counts of what one actor did, or several. A count that reaches 2^64 - 1 stays there.
#[derive(Clone, Copy, Debug, Default, PartialEq, Eq)]
pub struct Tally {
    /// Faults that gave a page its first frame.
    pub demand: u64,
    /// Faults that mapped a virtual page to the frame that its backing page had.
    pub alias: u64,
    /// Faults through the hint bit.
    pub hint: u64,
    /// Faults that gave back the right to write which was saved for a shadow.
    pub shadow: u64,
    /// Pages marked as candidates.
    pub marked: u64,
    /// Candidates unmarked outside an operation, since the candidates' lane was full.
    pub spilled: u64,
    /// Candidates unmarked inside an operation, since they were cold.
    pub cold: u64,
    /// Transactions that committed.
    pub committed: u64,
    /// Pages moved under their lock.
    pub moved: u64,
    /// Moves that found no frame.
    pub noframe: u64,
    /// Moves that found nothing to move.
    pub gone: u64,
    /// Moves that were given up because too much was drawn already.
    pub worn: u64,
    /// Transactions that were aborted by a dirty walk.
    pub aborted: u64,
    /// Demotions that mapped the page to its shadow.
    pub remapped: u64,
    /// Demotions that copied the page.
    pub copied: u64,
    /// Words copied.
    pub words: u64,
    /// Flushes of the translation caches.
    pub flushes: u64,
    /// Shadows given back for want of frames.
    pub reclaimed: u64,
}

impl Tally {
    /// Field by field the sum, or 2^64 - 1 where the sum is greater.
    pub fn plus(self, other: Tally) -> Tally
        ensures { result ≡ sum_of self other }
    {
        Tally {
            demand: capped_sum(self.demand, other.demand),
            alias: capped_sum(self.alias, other.alias),
            hint: capped_sum(self.hint, other.hint),
            shadow: capped_sum(self.shadow, other.shadow),
            marked: capped_sum(self.marked, other.marked),
            spilled: capped_sum(self.spilled, other.spilled),
            cold: capped_sum(self.cold, other.cold),
            committed: capped_sum(self.committed, other.committed),
            moved: capped_sum(self.moved, other.moved),
            noframe: capped_sum(self.noframe, other.noframe),
            gone: capped_sum(self.gone, other.gone),
            worn: capped_sum(self.worn, other.worn),
            aborted: capped_sum(self.aborted, other.aborted),
            remapped: capped_sum(self.remapped, other.remapped),
            copied: capped_sum(self.copied, other.copied),
            words: capped_sum(self.words, other.words),
            flushes: capped_sum(self.flushes, other.flushes),
            reclaimed: capped_sum(self.reclaimed, other.reclaimed),
        }
    }
}

/// The sum, or 2^64 - 1 where it is greater.
fn capped_sum(a: u64, b: u64) -> u64
    ensures { result ≡ capped_sum a b }
{
    a.saturating_add(b)
}
