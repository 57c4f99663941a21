//! Writing a report's summary.

ghost use Rattle.std.specs.Prelude.{◌≡◌, ◌^◌, ◌%◌, ◌<◌, ◌≤◌, ◌++◌, map, length, sum_by, count_by, OnOk, IfOk};
ghost use Rattle.nm_report.specs.Texts.{IsPrintable};
ghost use Rattle.nm_report.specs.Summary.{is_load, is_store, loaded_value, access_count, load_count, store_count, loaded_sum, accesses_text, summary_text, AddsUp, HasNoAwait};

use crate::line_result::LineResult;
use crate::printing::{push_counts, push_tiers};
use crate::report::Report;
use nm_text::push_field;
use std::alloc::{AllocError, Global};

/// The text of the summary of `drill` with this number and size: how many accesses there were, the sum of the values
/// loaded, modulo 2^64, and the report's lines of tiers, counts and end. An add counts as a store, and the value
/// before it is not in the sum, so the accesses are the loads and the stores. `AllocError` comes where there is no memory for it.
#[tactic(auto, using(crate::proofs::Added::adds_up))]
pub fn summary(
    alloc: Global,
    number: u64,
    size: u32,
    report: &Report<'_>,
) -> Result<Vec<u8>, AllocError>
    requires printable { IsPrintable report.now }
    requires no_await { HasNoAwait report.now.script.programs }
    ensures text { IfOk result (λ text. text.items ≡ summary_text number size report.now) }
    ensures adds_up { AddsUp report.now.results }
{
    let mut out = Vec::new(alloc);
    push_field(&mut out, b"drill ", number)?;
    push_field(&mut out, b" ", u64::from(size))?;
    out.push(b'\n')?;
    push_accesses(&mut out, report)?;
    push_tiers(&mut out, report)?;
    push_counts(&mut out, report)?;
    Ok(out)
}

/// Writes the line of the accesses.
fn push_accesses(out: &mut Vec<u8>, report: &Report<'_>) -> Result<(), AllocError>
    requires { IsPrintable report.now }
    ensures { OnOk result (out.new.items ≡ out.old.items ++ accesses_text report.now.results) }
{
    let script = report.script;
    let g = &script.geometry;
    let _cpus = g.cpus;
    push_totals(out, report.results)
}

/// Writes the line of the accesses of these lists.
fn push_totals(out: &mut Vec<u8>, results: &[Vec<LineResult>]) -> Result<(), AllocError>
    requires { length results.now ≤ 16 }
    ensures { OnOk result (out.new.items ≡ out.old.items ++ accesses_text (map (λ r. r.items) results.now)) }
{
    let totals = totals_of(results);
    push_field(out, b"accesses ", totals.accesses)?;
    push_field(out, b" loads ", totals.loads)?;
    push_field(out, b" stores ", totals.stores)?;
    push_field(out, b" sum ", totals.sum)?;
    out.push(b'\n')?;
    Ok(())
}

/// Counts of accesses, and the sum of the values loaded, modulo 2^64.
#[derive(Clone, Copy)]
struct Totals {
    accesses: u64,
    loads: u64,
    stores: u64,
    sum: u64,
}

/// The totals of several lists.
fn totals_of(results: &[Vec<LineResult>]) -> Totals
    requires { length results.now ≤ 16 }
    ensures accesses { result.accesses ≡ access_count (map (λ r. r.items) results.now) }
    ensures loads { result.loads ≡ load_count (map (λ r. r.items) results.now) }
    ensures stores { result.stores ≡ store_count (map (λ r. r.items) results.now) }
    ensures sum { result.sum ≡ loaded_sum (map (λ r. r.items) results.now) % 2 ^ 64 }
{
    let mut totals = Totals {
        accesses: 0,
        loads: 0,
        stores: 0,
        sum: 0,
    };
    for list in results {
        let own = totals_of_list(list);
        totals.accesses += own.accesses;
        totals.loads += own.loads;
        totals.stores += own.stores;
        totals.sum = totals.sum.wrapping_add(own.sum);
    }
    totals
}

/// The totals of one list.
fn totals_of_list(results: &[LineResult]) -> Totals
    ensures accesses { result.accesses ≡ length results.now }
    ensures loads { result.loads ≡ count_by is_load results.now }
    ensures stores { result.stores ≡ count_by is_store results.now }
    ensures sum { result.sum ≡ sum_by loaded_value results.now % 2 ^ 64 }
    ensures few { length results.now < 2 ^ 59 }
{
    let mut totals = Totals {
        accesses: results.len() as u64,
        loads: 0,
        stores: 0,
        sum: 0,
    };
    for result in results {
        match result {
            LineResult::Loaded(x) => {
                totals.loads += 1;
                totals.sum = totals.sum.wrapping_add(*x);
            }
            LineResult::Stored | LineResult::Added(_) => totals.stores += 1,
            LineResult::Met(_) | LineResult::Missed(_) => {}
        }
    }
    totals
}
