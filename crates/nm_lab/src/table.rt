//! The text of a lab.

ghost use Rattle.std.specs.Prelude.{◌≡◌, ◌<◌, ◌^◌, ◌++◌, length, flat_map, OnOk, IfOk};
ghost use Rattle.nm_lab.specs.Rows.{IsLabText, retry_text, row_text, settled_text};

use crate::rows::{LabRow, best};
use nm_text::{push_field, push_number};
use std::alloc::{AllocError, Global};

/// The text of a lab: how many runs there are, a line for each, and which is the best. `AllocError` comes where there is no
/// memory for it. Condition: there is a row, and there are fewer than 2^32.
pub fn print_lab(alloc: Global, rows: &[LabRow]) -> Result<Vec<u8>, AllocError>
    requires some { 0 < length rows.now }
    requires few { length rows.now < 2 ^ 32 }
    ensures { IfOk result (λ text. IsLabText rows.now text.items) }
{
    let mut out = Vec::new(alloc);
    push_field(&mut out, b"lab ", rows.len() as u64)?;
    out.push(b'\n')?;
    push_rows(&mut out, rows)?;
    let place = best(rows);
    out.extend_from_slice(b"best ")?;
    push_retry(&mut out, rows[place as usize].retry)?;
    out.push(b'\n')?;
    Ok(out)
}

/// Writes the lines of the rows.
fn push_rows(out: &mut Vec<u8>, rows: &[LabRow]) -> Result<(), AllocError>
    ensures { OnOk result (out.new.items ≡ out.old.items ++ flat_map row_text rows.now) }
{
    for row in rows {
        push_row(out, row)?;
    }
    Ok(())
}

/// Writes the line of a row.
fn push_row(out: &mut Vec<u8>, row: &LabRow) -> Result<(), AllocError>
    ensures { OnOk result (out.new.items ≡ out.old.items ++ row_text row.now) }
{
    out.extend_from_slice(b"retry ")?;
    push_retry(out, row.retry)?;
    push_field(out, b" slow ", row.slow)?;
    push_field(out, b" committed ", row.committed)?;
    push_field(out, b" moved ", row.moved)?;
    push_field(out, b" aborted ", row.aborted)?;
    push_settled(out, row.settled)?;
    Ok(())
}

/// Writes a retry.
fn push_retry(out: &mut Vec<u8>, retry: Option<u32>) -> Result<(), AllocError>
    ensures { OnOk result (out.new.items ≡ out.old.items ++ retry_text retry) }
{
    match retry {
        None => out.extend_from_slice(b"never"),
        Some(number) => push_number(out, number as u64),
    }
}

/// Writes the end of the line of a row.
fn push_settled(out: &mut Vec<u8>, settled: bool) -> Result<(), AllocError>
    ensures { OnOk result (out.new.items ≡ out.old.items ++ settled_text settled) }
{
    if settled {
        out.extend_from_slice(b" settled yes\n")
    } else {
        out.extend_from_slice(b" settled no\n")
    }
}
