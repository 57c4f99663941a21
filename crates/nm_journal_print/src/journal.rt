//! The text of a journal.

ghost use Rattle.std.specs.Prelude.{◌≡◌, ◌++◌, List, IfOk, OnOk, codes};
ghost use Rattle.std.specs.List.{AllByRecursion};
ghost use Rattle.nm_action.specs.declared.action.Event as actions;
ghost use Rattle.nm_script.specs.Items.{line};
ghost use Rattle.nm_script.specs.Script.{IsScript, script_text};
ghost use Rattle.nm_report.specs.Texts.{IsPrintable};
ghost use Rattle.nm_event_text.specs.Events.{FitsEvent};
ghost use Rattle.nm_journal_text.specs.Journals.{told_text, events_text, journal_text};

use crate::lines::push_events;
use nm_action::Event;
use nm_report::{Report, print_told};
use nm_script::{Script, print};
use std::alloc::{AllocError, Global};

/// The text of a journal: the canonical text of its script, the line `events`, a line for each event, the line `report`, and the lines
/// of a report but for the four of its counts. The numbers of the events fit their fields. `AllocError` comes where there is no
/// memory for it. Conditions: the report is one of this script, and can be printed.
pub fn print_journal(
    alloc: Global,
    script: &Script,
    events: &[Event],
    report: &Report<'_>,
) -> Result<Vec<u8>, AllocError>
    requires script { IsScript script.now }
    requires same { report.now.script ≡ script.now }
    requires printable { IsPrintable report.now }
    ensures text { IfOk result (λ text. text.items ≡ journal_text (script_text script.now) script.now events.now report.now.results report.now.end) }
    ensures fits { IfOk result (λ _. AllByRecursion FitsEvent events.now) }
{
    let mut out = opening(alloc, script)?;
    push_events(&mut out, events)?;
    push_report(alloc, &mut out, report)?;
    Ok(out)
}

/// The text of a journal whose lines of events are written already. `AllocError` comes where there is no memory for it. Conditions:
/// the report is one of this script, and can be printed.
pub fn print_with_lines(
    alloc: Global,
    script: &Script,
    lines: &[u8],
    report: &Report<'_>,
) -> Result<Vec<u8>, AllocError>
    requires script { IsScript script.now }
    requires same { report.now.script ≡ script.now }
    requires printable { IsPrintable report.now }
    ensures { IfOk result (λ text. (events : List actions.Event) → lines.now ≡ events_text events
        → text.items ≡ journal_text (script_text script.now) script.now events report.now.results report.now.end) }
{
    let mut out = opening(alloc, script)?;
    out.extend_from_slice(lines)?;
    push_report(alloc, &mut out, report)?;
    Ok(out)
}

/// What stands before the lines of events.
fn opening(alloc: Global, script: &Script) -> Result<Vec<u8>, AllocError>
    requires { IsScript script.now }
    ensures { IfOk result (λ text. text.items ≡ script_text script.now ++ line (codes "events")) }
{
    let mut out = print(alloc, script)?;
    out.extend_from_slice(b"events\n")?;
    Ok(out)
}

/// Writes what stands behind the lines of events.
fn push_report(alloc: Global, out: &mut Vec<u8>, report: &Report<'_>) -> Result<(), AllocError>
    requires { IsPrintable report.now }
    ensures { OnOk result (out.new.items ≡ out.old.items ++ (line (codes "report") ++ told_text report.now.script report.now.results report.now.end)) }
{
    let told = print_told(alloc, report)?;
    out.extend_from_slice(b"report\n")?;
    out.extend_from_slice(&told)
}
