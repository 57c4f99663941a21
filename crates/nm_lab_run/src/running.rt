//! A run of a script for each retry, one after the other.

ghost use Rattle.std.specs.Prelude.{◌≡◌, ◌<◌, ◌≤◌, ◌^◌, IfOk, IfSome, length};
ghost use Rattle.std.specs.List.{AllByRecursion};
ghost use Rattle.nm_script.specs.Script.{IsScript};
ghost use Rattle.nm_lab.specs.Retry.{with_retry};
ghost use Rattle.nm_lab_run.specs.LabRuns.{AreRowsOf, IsLabOf, IsMeasured, IsRowOf};

use nm_lab::{LabRow, print_lab, with_retry};
use nm_lab_counter::SlowCounter;
use nm_sched::simulate_with;
use nm_script::Script;
use std::alloc::{AllocError, Global};

/// The table of a lab: the script is run once for each of the retries, in the order of its schedule. The memory of one run is given back
/// before the next. `AllocError` comes where there is none. Conditions: there is a retry, and each number is at most 1,000.
pub fn lab_of(
    alloc: Global,
    script: &Script,
    retries: &[Option<u32>],
) -> Result<Vec<u8>, AllocError>
    requires script { IsScript script.now }
    requires some { 0 < length retries.now }
    requires few { length retries.now ≤ 8 }
    requires retries { AllByRecursion (λ retry. IfSome retry (λ number. number ≤ 1000)) retries.now }
    ensures { IfOk result (λ text. IsLabOf retries.now script.now text.items) }
{
    let rows = lab_rows(alloc, script, retries)?;
    print_lab(alloc, &rows)
}

/// A row for each retry.
fn lab_rows(
    alloc: Global,
    script: &Script,
    retries: &[Option<u32>],
) -> Result<Vec<LabRow>, AllocError>
    requires script { IsScript script.now }
    requires retries { AllByRecursion (λ retry. IfSome retry (λ number. number ≤ 1000)) retries.now }
    ensures { IfOk result (λ rows. AreRowsOf script.now retries.now rows.items) }
{
    let mut rows = Vec::with_capacity(alloc, retries.len())?;
    for retry in retries {
        let row = lab_row(alloc, script, *retry)?;
        rows.push(row)?;
    }
    Ok(rows)
}

/// The row of one retry: what the run of the script with that retry costs.
fn lab_row(alloc: Global, script: &Script, retry: Option<u32>) -> Result<LabRow, AllocError>
    requires script { IsScript script.now }
    requires retry { IfSome retry (λ number. number ≤ 1000) }
    ensures { IfOk result (IsRowOf script.now retry) }
{
    let with = with_retry(alloc, script, retry)?;
    measured(alloc, &with, retry)
}

/// What the run of a script costs.
fn measured(alloc: Global, script: &Script, retry: Option<u32>) -> Result<LabRow, AllocError>
    requires script { IsScript script.now }
    ensures { IfOk result (IsMeasured script.now retry) }
{
    let run = simulate_with(alloc, script, SlowCounter::new())?;
    Ok(LabRow {
        retry,
        slow: run.watcher.slow,
        committed: run.tally.committed,
        moved: run.tally.moved,
        aborted: run.tally.aborted,
        settled: run.end.settled,
    })
}
