//! What stands behind the script part of a journal.

ghost use Rattle.std.specs.Prelude.{◌≡◌, ◌+◌, ◌<◌, ◌≤◌, ◌^◌, ◌-◌, ◌++◌, ◌∷◌, [], ℕ, List, length, replicate, codes, IfOk, Some, None, Ok, Option};
ghost use Rattle.nm_action.specs.declared.action.Event.{Event};
ghost use Rattle.nm_core.specs.Runs.{state_after};
ghost use Rattle.nm_core.specs.State.{start};
ghost use Rattle.nm_follow.specs.Cursors.{new_cursor};
ghost use Rattle.nm_script.specs.Script.{IsScript};
ghost use Rattle.nm_journal_text.specs.Journals.{IsBody};
ghost use Rattle.nm_journal_text.specs.Taken.{AreTaken, AreWhole};
ghost use Rattle.nm_journal_text.specs.Verdicts.{joined, IsFirstWrong};
ghost use Rattle.nm_journal_text.specs.Following.{event_lines, IsFollowed, IsTakenTo};

use crate::differing::first_difference;
use crate::reader::follow;
use crate::report::{are_whole, end_of, results_of, told_lines};
use nm_core::State;
use nm_follow::Cursor;
use nm_script::Script;
use nm_text::strip;
use std::alloc::{AllocError, Global};

/// Checks what stands behind the line report: None where it makes a journal of the script that holds, or else how many of its lines are
/// right. `events` are those before it.
pub fn check_report(
    alloc: Global,
    script: &Script,
    state: &State,
    cursors: Vec<Cursor>,
    text: &[u8],
) -> Result<Option<u32>, AllocError>
    requires script { IsScript script.now }
    requires taken { (events : List Event) × AreTaken script.now events cursors.items × (state.now ≡ state_after script.now.geometry events) }
    requires few { length text.now < 2 ^ 32 }
    ensures few { (n : ℕ) → result ≡ Ok (Some n) → n ≤ length text.now }
    ensures holds { result ≡ Ok None → (events : List Event) → AreTaken script.now events cursors.items → state.now ≡ state_after script.now.geometry events
        → AreWhole script.now state.now cursors.items → IsBody script.now (joined (event_lines events ++ codes "report" ∷ []) ++ text.now) }
    ensures wrong { (n : ℕ) → result ≡ Ok (Some n) → (events : List Event) → AreTaken script.now events cursors.items → state.now ≡ state_after script.now.geometry events
        → AreWhole script.now state.now cursors.items → IsFirstWrong script.now (joined (event_lines events ++ codes "report" ∷ []) ++ text.now) (length events + 2 + n) }
{
    let end = end_of(alloc, state)?;
    let results = results_of(alloc, cursors)?;
    let told = told_lines(alloc, script, &results, &end)?;
    Ok(first_difference(&told, text))
}

/// A cursor at the beginning of each program.
fn new_cursors(alloc: Global, cpus: u32) -> Result<Vec<Cursor>, AllocError>
    ensures { IfOk result (λ v. v.items ≡ replicate cpus new_cursor) }
{
    let mut cursors = Vec::with_capacity(alloc, cpus as usize)?;
    for _cpu in 0..cpus {
        cursors.push(Cursor::new(alloc))?;
    }
    Ok(cursors)
}

/// The machine of a script, and a cursor at the beginning of each of its programs.
fn opening(alloc: Global, script: &Script) -> Result<(State, Vec<Cursor>), AllocError>
    ensures state { IfOk result (λ p. p.0 ≡ start script.now.geometry) }
    ensures cursors { IfOk result (λ p. p.1.items ≡ replicate script.now.geometry.cpus new_cursor) }
{
    let state = State::start(alloc, &script.geometry)?;
    let cursors = new_cursors(alloc, script.geometry.cpus)?;
    Ok((state, cursors))
}

/// Checks what stands behind the line report, of which these lines of events are before it. None where the text holds, or else how
/// many lines behind the script part are right.
fn check_end(
    alloc: Global,
    script: &Script,
    state: &State,
    cursors: Vec<Cursor>,
    count: u32,
    after: &[u8],
) -> Result<Option<u32>, AllocError>
    requires script { IsScript script.now }
    requires followed { (text : List ℕ) × IsFollowed script.now text count (Some after.now) state.now cursors.items }
    requires whole { AreWhole script.now state.now cursors.items }
    requires few { count + length after.now + 2 < 2 ^ 32 }
    ensures holds { result ≡ Ok None → (text : List ℕ) → IsFollowed script.now text count (Some after.now) state.now cursors.items
        → IsBody script.now (codes "events" ++ 10 ∷ text) }
    ensures wrong { (n : ℕ) → result ≡ Ok (Some n) → (text : List ℕ) → IsFollowed script.now text count (Some after.now) state.now cursors.items
        → IsFirstWrong script.now (codes "events" ++ 10 ∷ text) n }
    ensures few { (n : ℕ) → result ≡ Ok (Some n) → n ≤ count + 2 + length after.now }
{
    match check_report(alloc, script, state, cursors, after)? {
        None => Ok(None),
        Some(n) => Ok(Some(count + 2 + n)),
    }
}

/// Checks the lines of events, and what stands behind them. None where the text holds, or else how many lines behind the script
/// part are right.
fn check_lines(
    alloc: Global,
    script: &Script,
    state: &mut State,
    mut cursors: Vec<Cursor>,
    text: &[u8],
) -> Result<Option<u32>, AllocError>
    requires script { IsScript script.now }
    requires begins { IsTakenTo script.now text.now text.now 0 state.old cursors.items }
    requires few { length text.now + 2 < 2 ^ 32 }
    ensures holds { result ≡ Ok None → IsBody script.now (codes "events" ++ 10 ∷ text.now) }
    ensures wrong { (n : ℕ) → result ≡ Ok (Some n) → IsFirstWrong script.now (codes "events" ++ 10 ∷ text.now) n }
    ensures few { (n : ℕ) → result ≡ Ok (Some n) → n ≤ length text.now + 2 }
{
    let (count, after) = follow(script, state, &mut cursors, text)?;
    match after {
        Some(after) if are_whole(script, state, &cursors) => check_end(
            alloc, script, state, cursors, count, after,
        ),
        _ => Ok(Some(count + 1)),
    }
}

/// Checks what stands behind the line events.
fn check_events(alloc: Global, script: &Script, text: &[u8]) -> Result<Option<u32>, AllocError>
    requires script { IsScript script.now }
    requires few { length text.now + 2 < 2 ^ 32 }
    ensures holds { result ≡ Ok None → IsBody script.now (codes "events" ++ 10 ∷ text.now) }
    ensures wrong { (n : ℕ) → result ≡ Ok (Some n) → IsFirstWrong script.now (codes "events" ++ 10 ∷ text.now) n }
    ensures few { (n : ℕ) → result ≡ Ok (Some n) → n ≤ length text.now + 2 }
{
    let (mut state, cursors) = opening(alloc, script)?;
    check_lines(alloc, script, &mut state, cursors, text)
}

/// Checks what stands behind a script part: None where it makes a journal of the script that holds, or else how many of its lines are
/// right.
pub fn check_body(alloc: Global, script: &Script, body: &[u8]) -> Result<Option<u32>, AllocError>
    requires script { IsScript script.now }
    requires few { length body.now < 2 ^ 32 - 1 }
    ensures holds { result ≡ Ok None → IsBody script.now body.now }
    ensures wrong { (n : ℕ) → result ≡ Ok (Some n) → IsFirstWrong script.now body.now n }
    ensures few { (n : ℕ) → result ≡ Ok (Some n) → n ≤ length body.now }
{
    match strip(body, b"events\n") {
        None => Ok(Some(0)),
        Some(text) => check_events(alloc, script, text),
    }
}
