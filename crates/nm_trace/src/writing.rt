//! Writing the trace of a script.

ghost use Rattle.std.specs.Prelude.{◌≡◌, ◌+◌, ◌*◌, ◌++◌, map, flat_map, All, IsTrue, ◌↔◌, IfOk, OnOk, MatchOption};
ghost use Rattle.nm_trace.specs.References.{reference_text};
ghost use Rattle.nm_trace.specs.Traces.{IsTraced, HasTrace, references_by, references_from, trace_text};

use crate::reference::Reference;
use nm_script::{Line, Script};
use nm_text::push_number;
use std::alloc::{AllocError, Global};

/// The words of a page of 4,096 bytes.
const WORDS: u32 = 512;
/// The bytes of a page.
const PAGE_BYTES: u64 = 4096;
/// The bytes of a word.
const WORD_BYTES: u64 = 8;

/// The trace of a script: the header, and the programs one after the other, a record for each line, with virtual page
/// v at address 4096 * v and its words 8 bytes apart.
///
/// None exactly where some line is an await or an add, or a page has not 512 words. An error comes only where there is
/// no memory for it.
pub fn to_trace(alloc: Global, script: &Script) -> Result<Option<Vec<u8>>, AllocError>
    ensures { IfOk result (λ o. MatchOption o (¬ HasTrace script.now) (λ v. HasTrace script.now × (v.items ≡ trace_text script.now))) }
{
    if !has_trace(script) {
        return Ok(None);
    }
    let mut out = Vec::new(alloc);
    out.extend_from_slice(b"cpu,kind,address,value\n")?;
    push_programs(&mut out, &script.programs)?;
    Ok(Some(out))
}

/// Whether pages have 4,096 bytes, and every line loads or stores.
fn has_trace(script: &Script) -> bool
    ensures { IsTrue result ↔ HasTrace script.now }
{
    if script.geometry.words != WORDS {
        return false;
    }
    are_traced(&script.programs)
}

/// Whether every line of the programs loads or stores.
fn are_traced(programs: &[Vec<Line>]) -> bool
    ensures { IsTrue result ↔ All (λ p. All IsTraced p.items) programs.now }
{
    programs.iter().all(|program| is_traced(program))
}

/// Whether every line of a program loads or stores.
fn is_traced(program: &[Line]) -> bool
    ensures { IsTrue result ↔ All IsTraced program.now }
{
    program.iter().all(|line| is_traced_line(*line))
}

/// Whether a line loads or stores.
fn is_traced_line(line: Line) -> bool
    ensures { IsTrue result ↔ IsTraced line }
{
    match line {
        Line::Load { .. } | Line::Store { .. } => true,
        Line::Add { .. } | Line::Await { .. } => false,
    }
}

/// Writes the records of the programs.
fn push_programs(out: &mut Vec<u8>, programs: &[Vec<Line>]) -> Result<(), AllocError>
    ensures { OnOk result (out.new.items ≡ out.old.items ++ flat_map reference_text (references_from 0 (map (λ p. p.items) programs.now))) }
{
    for cpu in 0..programs.len() {
        push_program(out, cpu as u64, &programs[cpu])?;
    }
    Ok(())
}

/// Writes the records of a processor's program.
fn push_program(out: &mut Vec<u8>, cpu: u64, program: &[Line]) -> Result<(), AllocError>
    ensures { OnOk result (out.new.items ≡ out.old.items ++ flat_map reference_text (flat_map (references_by cpu) program.now)) }
{
    for line in program {
        push_line(out, cpu, *line)?;
    }
    Ok(())
}

/// Writes the record of a line, where it loads or stores.
fn push_line(out: &mut Vec<u8>, cpu: u64, line: Line) -> Result<(), AllocError>
    ensures { OnOk result (out.new.items ≡ out.old.items ++ flat_map reference_text (references_by cpu line)) }
{
    match line {
        Line::Load { v, w } => push_reference(
            out,
            Reference {
                cpu,
                address: address_of(v, w),
                value: None,
            },
        ),
        Line::Store { v, w, x } => push_reference(
            out,
            Reference {
                cpu,
                address: address_of(v, w),
                value: Some(x),
            },
        ),
        Line::Add { .. } | Line::Await { .. } => Ok(()),
    }
}

/// The address of a word of a virtual page.
fn address_of(v: u32, w: u32) -> u64
    ensures { result ≡ 4096 * v + 8 * w }
{
    PAGE_BYTES * u64::from(v) + WORD_BYTES * u64::from(w)
}

/// Writes a record.
fn push_reference(out: &mut Vec<u8>, reference: Reference) -> Result<(), AllocError>
    ensures { OnOk result (out.new.items ≡ out.old.items ++ reference_text reference) }
{
    push_number(out, reference.cpu)?;
    match reference.value {
        None => {
            out.extend_from_slice(b",r,")?;
            push_number(out, reference.address)?;
            out.extend_from_slice(b",\n")
        }
        Some(value) => {
            out.extend_from_slice(b",w,")?;
            push_number(out, reference.address)?;
            out.push(b',')?;
            push_number(out, value)?;
            out.push(b'\n')?;
            Ok(())
        }
    }
}
