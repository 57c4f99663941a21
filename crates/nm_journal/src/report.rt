//! What stands behind the line report of a journal.

ghost use Rattle.std.specs.Prelude.{◌≡◌, ◌<◌, ◌≤◌, ◌^◌, ◌↔◌, ℕ, List, IsTrue, true, length, map, slice_index, IfOk, Some, None, Ok, Option};
ghost use Rattle.nm_core.specs.State.{view_of};
ghost use Rattle.nm_core.specs.EndWords as ends;
ghost use Rattle.nm_report.specs.Texts.{IsPrintable};
ghost use Rattle.nm_follow.specs.Cursors.{Cursor};
ghost use Rattle.nm_journal_text.specs.Journals.{has_ended_in, program_of, told_text};
ghost use Rattle.nm_journal_text.specs.Taken.{cursor_of, results_in, zero_tally, AreWhole};

use crate::event::program_at;
use nm_action::Tally;
use nm_core::{EndWords, State};
use nm_follow::Cursor;
use nm_report::{LineResult, Report, print_told};
use nm_script::{Line, Script};
use nm_view::END;
use std::alloc::{AllocError, Global};

/// The end words of a state.
pub fn end_of(alloc: Global, state: &State) -> Result<EndWords, AllocError>
    ensures { IfOk result (ends.IsEndOf state.now) }
{
    let mut end = EndWords::with_room(alloc, state.geometry())?;
    state.end_words(&mut end);
    Ok(end)
}

/// What the lines of each processor gave.
pub fn results_of(alloc: Global, cursors: Vec<Cursor>) -> Result<Vec<Vec<LineResult>>, AllocError>
    ensures { IfOk result (λ r. map (λ v. v.items) r.items ≡ results_in cursors.items) }
{
    let mut results = Vec::with_capacity(alloc, cursors.len())?;
    for cursor in cursors {
        let Cursor { results: own, .. } = cursor;
        results.push(own)?;
    }
    Ok(results)
}

/// The lines of a report but for those of its counts.
pub fn told_lines(
    alloc: Global,
    script: &Script,
    results: &[Vec<LineResult>],
    end: &EndWords,
) -> Result<Vec<u8>, AllocError>
    requires { IsPrintable (record { script = script.now; results = map (λ v. v.items) results.now; end = end.now; tally = zero_tally }) }
    ensures { IfOk result (λ text. text.items ≡ told_text script.now (map (λ v. v.items) results.now) end.now) }
{
    let report = Report {
        script,
        results,
        end,
        tally: no_counts(),
    };
    print_told(alloc, &report)
}

/// No counts.
fn no_counts() -> Tally
    ensures { result ≡ zero_tally }
{
    Tally {
        demand: 0,
        alias: 0,
        hint: 0,
        shadow: 0,
        marked: 0,
        spilled: 0,
        cold: 0,
        committed: 0,
        moved: 0,
        noframe: 0,
        gone: 0,
        worn: 0,
        aborted: 0,
        remapped: 0,
        copied: 0,
        words: 0,
        flushes: 0,
        reclaimed: 0,
    }
}

/// Whether there are as many results as lines.
fn is_full(program: &[Line], results: &[LineResult]) -> bool
    ensures { IsTrue result ↔ (length results.now ≡ length program.now) }
{
    results.len() == program.len()
}

/// Whether a cursor has come to the end of a program.
fn is_over(program: &[Line], cursor: &Cursor) -> bool
    ensures { IsTrue result ↔ (length cursor.now.results ≡ length program.now) }
{
    is_full(program, &cursor.results)
}

/// Whether a processor has made its whole program, if it has ended.
fn is_whole_at(script: &Script, state: &State, cursors: &[Cursor], cpu: u32) -> bool
    requires machine { state.now.geometry ≡ script.now.geometry }
    requires there { cpu < script.now.geometry.cpus }
    requires cpus { length cursors.now ≡ script.now.geometry.cpus }
    requires programs { length script.now.programs ≡ script.now.geometry.cpus }
    requires acked { (view_of state.now cpu).acked ≡ slice_index state.now.words.ack cpu }
    ensures { IsTrue result ↔ (has_ended_in state.now cpu ≡ true → length (cursor_of cursors.now cpu).results ≡ length (program_of script.now cpu)) }
{
    state.view(cpu).acked != END || is_over(program_at(script, cpu), &cursors[cpu as usize])
}

/// Whether each processor that has ended has made its whole program.
pub fn are_whole(script: &Script, state: &State, cursors: &[Cursor]) -> bool
    requires machine { state.now.geometry ≡ script.now.geometry }
    requires cpus { length cursors.now ≡ script.now.geometry.cpus }
    requires programs { length script.now.programs ≡ script.now.geometry.cpus }
    requires acked { (cpu : ℕ) → cpu < script.now.geometry.cpus → (view_of state.now cpu).acked ≡ slice_index state.now.words.ack cpu }
    ensures { IsTrue result ↔ AreWhole script.now state.now cursors.now }
{
    for cpu in 0..script.geometry.cpus {
        if !is_whole_at(script, state, cursors, cpu) {
            return false;
        }
    }
    true
}
