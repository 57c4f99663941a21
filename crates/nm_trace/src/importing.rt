//! The script of a trace.

ghost use Rattle.std.specs.Prelude.{◌≡◌, ◌≢◌, ◌+◌, ◌-◌, ◌≤◌, ◌<◌, ◌^◌, [], List, length, Ok, Err, IfOk, IfErr, OnOk};
ghost use Rattle.csv.specs.Records.{fields_of};
ghost use Rattle.nm_script.specs.Script.{IsScript};
ghost use Rattle.nm_trace.specs.References.{header};
ghost use Rattle.nm_trace.specs.Imports.{IsImport, IsTraceOf, IsTraceRefusal, IsFirstTraceFault};
ghost use Rattle.nm_trace.specs.Replies.{GivesImport};
ghost use Rattle.nm_trace.specs.Drafts.{IsDraftOf, TakesReference, IsRowRefusal};
ghost use Rattle.nm_trace.specs.declared.reference.Reference.{Reference};

use crate::draft::{Draft, Untaken};
use crate::fault::{TraceFault, TraceRefusal};
use crate::reading::{is_header, read_reference};
use csv::{ByteRecord, ReaderBuilder};
use nm_script::{Script, print};
use std::alloc::Global;

/// The most bytes of a script's text.
const MOST_BYTES: usize = 16_777_216;

/// The script of a trace, with two tiers of `fast` and `slow` frames.
///
/// `At` comes exactly where the text is no trace, or its script is too long, with the first fault and its record.
/// `Memory` comes where there is none for the script.
pub fn import(alloc: Global, bytes: &[u8], fast: u32, slow: u32) -> Result<Script, TraceRefusal>
    requires fast { 1 ≤ fast }
    requires slow { 1 ≤ slow }
    requires sum { fast + slow ≤ 4096 }
    requires short { length bytes.now < 2 ^ 32 - 1 }
    // The script is that of a trace of the bytes.
    ensures found { IfOk result (IsImport bytes.now fast slow) }
    // The script of a trace is given, unless memory runs out.
    ensures only { (s : _) → IsImport bytes.now fast slow s → GivesImport result (Ok s) }
    // A refusal is the first fault, and a first fault is refused so, unless memory runs out.
    ensures fault { IfErr result (IsTraceRefusal bytes.now fast slow) }
    ensures first { (f : _) (n : _) → IsFirstTraceFault bytes.now fast slow f n → GivesImport result (Err (f, n)) }
    ensures script { IfOk result IsScript }
{
    read_script(alloc, bytes, fast, slow)
}

/// The script of a trace, or its first fault.
fn read_script(alloc: Global, bytes: &[u8], fast: u32, slow: u32) -> Result<Script, TraceRefusal>
    requires fast { 1 ≤ fast }
    requires slow { 1 ≤ slow }
    requires sum { fast + slow ≤ 4096 }
    requires short { length bytes.now < 2 ^ 32 - 1 }
    ensures found { IfOk result (IsImport bytes.now fast slow) }
    ensures fault { IfErr result (IsTraceRefusal bytes.now fast slow) }
    ensures script { IfOk result IsScript }
{
    let draft = read_records(alloc, bytes, fast, slow)?;
    let script = match draft.finish(alloc, fast, slow) {
        Ok(script) => script,
        Err(_) => return Err(TraceRefusal::Memory),
    };
    match print(alloc, &script) {
        Ok(text) => {
            if text.len() > MOST_BYTES {
                Err(TraceRefusal::At {
                    fault: TraceFault::ScriptTooLong,
                    row: 0,
                })
            } else {
                Ok(script)
            }
        }
        Err(_) => Err(TraceRefusal::Memory),
    }
}

/// What the records of a trace tell.
fn read_records(alloc: Global, bytes: &[u8], fast: u32, slow: u32) -> Result<Draft, TraceRefusal>
    requires sum { fast + slow ≤ 4096 }
    requires short { length bytes.now < 2 ^ 32 - 1 }
    ensures read { IfOk result (λ d. (refs : List Reference) × IsTraceOf bytes.now (fast + slow) refs × IsDraftOf d refs) }
    ensures fault { IfErr result (IsTraceRefusal bytes.now fast slow) }
{
    let mut draft = match Draft::new(alloc) {
        Ok(draft) => draft,
        Err(_) => return Err(TraceRefusal::Memory),
    };
    let rdr = ReaderBuilder::new()
        .has_headers(false)
        .flexible(true)
        .from_reader(alloc, bytes);
    let mut row = 0;
    for item in rdr.into_byte_records() {
        let fields = match item {
            Ok(fields) => fields,
            Err(_) => return Err(TraceRefusal::Memory),
        };
        row += 1;
        take_record(&mut draft, &fields, row, fast + slow)?;
    }
    if row == 0 {
        return Err(TraceRefusal::At {
            fault: TraceFault::BadHeader,
            row: 1,
        });
    }
    if row == 1 {
        return Err(TraceRefusal::At {
            fault: TraceFault::Empty,
            row: 2,
        });
    }
    Ok(draft)
}

/// Takes the record of this number: the first is the header.
fn take_record(
    draft: &mut Draft,
    fields: &ByteRecord,
    row: u32,
    frames: u32,
) -> Result<(), TraceRefusal>
    requires draft { (refs : List Reference) × IsDraftOf draft.old refs }
    requires few { frames ≤ 4096 }
    ensures header { row ≡ 1 → OnOk result ((draft.new ≡ draft.old) × (fields_of fields.now ≡ header)) }
    ensures no_header { row ≡ 1 → IfErr result (λ e. (e ≡ TraceRefusal.At TraceFault.BadHeader 1) × (fields_of fields.now ≢ header)) }
    ensures taken { row ≢ 1 → (refs : List Reference) → IsDraftOf draft.old refs → OnOk result (TakesReference draft.new (fields_of fields.now) frames refs) }
    ensures untaken { row ≢ 1 → (refs : List Reference) → IsDraftOf draft.old refs → IfErr result (IsRowRefusal frames refs (fields_of fields.now) row) }
{
    if row != 1 {
        return take_reference(draft, fields, row, frames);
    }
    if is_header(fields) {
        Ok(())
    } else {
        Err(TraceRefusal::At {
            fault: TraceFault::BadHeader,
            row,
        })
    }
}

/// Takes the reference of the record of this number.
fn take_reference(
    draft: &mut Draft,
    fields: &ByteRecord,
    row: u32,
    frames: u32,
) -> Result<(), TraceRefusal>
    requires draft { (refs : List Reference) × IsDraftOf draft.old refs }
    requires few { frames ≤ 4096 }
    ensures taken { (refs : List Reference) → IsDraftOf draft.old refs → OnOk result (TakesReference draft.new (fields_of fields.now) frames refs) }
    ensures untaken { (refs : List Reference) → IsDraftOf draft.old refs → IfErr result (IsRowRefusal frames refs (fields_of fields.now) row) }
{
    let reference = match read_reference(fields) {
        Ok(reference) => reference,
        Err(fault) => return Err(TraceRefusal::At { fault, row }),
    };
    match draft.take(reference, frames) {
        Ok(()) => Ok(()),
        Err(Untaken::Memory) => Err(TraceRefusal::Memory),
        Err(Untaken::TooManyPages) => Err(TraceRefusal::At {
            fault: TraceFault::TooManyPages,
            row,
        }),
    }
}
