//! The rows of a lab.

ghost use Rattle.std.specs.Prelude.{◌≡◌, ◌<◌, ◌^◌, length};
ghost use Rattle.nm_lab.specs.Rows.{IsBest};

/// A run of the script with one retry.
#[derive(Clone, Copy, Debug, PartialEq, Eq)]
pub struct LabRow {
    /// After how many aborts a page goes to the locked move; never where there is none.
    pub retry: Option<u32>,
    /// The slow accesses of the run.
    pub slow: u64,
    /// The pages that transactions committed.
    pub committed: u64,
    /// The pages that locked moves moved.
    pub moved: u64,
    /// The transactions that were aborted.
    pub aborted: u64,
    /// Whether the end of the run is settled.
    pub settled: bool,
}

/// The place of the first row with the fewest slow accesses.
pub fn best(rows: &[LabRow]) -> u32
    requires some { 0 < length rows.now }
    requires few { length rows.now < 2 ^ 32 }
    ensures { IsBest rows.now result }
{
    let mut at = 0;
    for i in 1..rows.len() {
        if rows[i].slow < rows[at].slow {
            at = i;
        }
    }
    at as u32
}
