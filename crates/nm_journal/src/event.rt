//! One event of a journal.

ghost use Rattle.std.specs.Prelude.{◌≡◌, ◌<◌, ◌≤◌, ◌↔◌, ◌++◌, ◌∷◌, [], ℕ, List, IsTrue, length, slice_set, slice_index_or, true, false, Ok, Some, None, Option, IfSome, IsSomeAnd};
ghost use Rattle.std.specs.List.{AllByRecursion};
ghost use Rattle.nm_flat.specs.declared.access.Access.{Access};
ghost use Rattle.nm_view.specs.Opening.{IsActor};
ghost use Rattle.nm_core.specs.State.{State};
ghost use Rattle.nm_core.specs.Kept.{IsKept};
ghost use Rattle.nm_core.specs.Runs.{IsStep, access_of, after_event};
ghost use Rattle.nm_script.specs.declared.script.Line.{Line};
ghost use Rattle.nm_report.specs.declared.line_result.LineResult.{LineResult};
ghost use Rattle.nm_report.specs.Follows.{AreMade};
ghost use Rattle.nm_follow.specs.Cursors.{HasTries, Cursor, IsCursorAt};
ghost use Rattle.nm_journal_text.specs.Journals.{program_of};
ghost use Rattle.nm_journal_text.specs.Taken.{cursor_of, AreMoved, IsAccessRefused, IsEventTaken, IsEventRefused, AreAt, IsLineTaken, IsLineRefused};

use nm_action::{Action, Event, Reply};
use nm_core::State;
use nm_event_text::read_event;
use nm_flat::{Access, AccessKind};
use nm_follow::Cursor;
use nm_permit::allowed;
use nm_script::{Line, Script};
use std::alloc::AllocError;

/// The access that an event is, if it is one.
fn access_of(event: Event) -> Option<Access>
    ensures { result ≡ access_of event }
{
    let (vpage, word, kind) = match (event.action, event.reply) {
        (Action::Load { vpage, word }, Reply::Word(x)) => (vpage, word, AccessKind::Load(x)),
        (Action::Store { vpage, word, value }, Reply::Word(_)) => (
            vpage,
            word,
            AccessKind::Store(value),
        ),
        (Action::Add { vpage, word, value }, Reply::Word(gave)) => (
            vpage,
            word,
            AccessKind::Add { gave, plus: value },
        ),
        _ => return None,
    };
    Some(Access {
        cpu: event.actor,
        vpage,
        word,
        kind,
    })
}

/// Makes the action of an event where it is permitted, and says whether the event is a step of the state. The state is of use
/// only where it is.
fn is_made(state: &mut State, event: Event) -> bool
    ensures is { IsTrue result ↔ IsStep state.old event }
    ensures after { IsTrue result → state.new ≡ after_event state.old event }
    ensures kept { IsKept state.old }
{
    if event.actor >= state.geometry().cpus + 2 {
        return false;
    }
    if !allowed(state.geometry(), state.view(event.actor), event.action) {
        return false;
    }
    state.apply(event.actor, event.action) == event.reply
}

/// The cursor of its processor takes an access. The answer says whether it follows the program.
fn take_access(cursors: &mut [Cursor], program: &[Line], access: Access) -> Result<bool, AllocError>
    requires cursor { access.cpu < length cursors.old }
    requires awaits { AllByRecursion HasTries program.now }
    requires tries { (cursor_of cursors.old access.cpu).tries < 1000000000 }
    ensures taken { result ≡ Ok true → (c : Cursor) × (cursors.new ≡ slice_set cursors.old access.cpu c)
        × ((list : List Access) → IsCursorAt access.cpu program.now (cursor_of cursors.old access.cpu) list
        → IsCursorAt access.cpu program.now c (list ++ access ∷ [])) }
    ensures refused { result ≡ Ok false → (list more : List Access) (results : List LineResult)
        → IsCursorAt access.cpu program.now (cursor_of cursors.old access.cpu) list → ¬ AreMade access.cpu program.now results (list ++ access ∷ more) }
{
    cursors[access.cpu as usize].take(program, access)
}

/// The program of a processor.
pub fn program_at(script: &Script, cpu: u32) -> &[Line]
    requires { cpu < length script.now.programs }
    ensures { result.now ≡ program_of script.now cpu }
{
    &script.programs[cpu as usize]
}

/// The access of an event is taken, if it has one. The answer says whether it follows the program of its processor.
fn take_any(
    cursors: &mut [Cursor],
    script: &Script,
    access: Option<Access>,
) -> Result<bool, AllocError>
    requires there { IfSome access (λ a. a.cpu < script.now.geometry.cpus) }
    requires cpus { length cursors.old ≡ script.now.geometry.cpus }
    requires programs { length script.now.programs ≡ script.now.geometry.cpus }
    requires awaits { (cpu : ℕ) → AllByRecursion HasTries (program_of script.now cpu) }
    requires tries { (cpu : ℕ) → cpu < script.now.geometry.cpus → (cursor_of cursors.old cpu).tries < 1000000000 }
    ensures taken { result ≡ Ok true → AreMoved script.now cursors.old access cursors.new }
    ensures refused { result ≡ Ok false → IsSomeAnd access (IsAccessRefused script.now cursors.old) }
{
    match access {
        None => Ok(true),
        Some(access) => take_access(cursors, program_at(script, access.cpu), access),
    }
}

/// Takes one event more. The answer says whether it is a step of the state, and its access follows the program of its processor; the
/// state is of use only where it is.
pub fn take_event(
    script: &Script,
    state: &mut State,
    cursors: &mut [Cursor],
    event: Event,
) -> Result<bool, AllocError>
    requires at { AreAt script.now state.old cursors.old }
    requires programs { length script.now.programs ≡ script.now.geometry.cpus }
    requires awaits { (cpu : ℕ) → AllByRecursion HasTries (program_of script.now cpu) }
    ensures taken { result ≡ Ok true → IsEventTaken script.now state.old cursors.old event state.new cursors.new }
    ensures refused { result ≡ Ok false → IsEventRefused script.now state.old cursors.old event }
{
    if !is_made(state, event) {
        return Ok(false);
    }
    take_any(cursors, script, access_of(event))
}

/// Takes one line more. The answer says whether it is that of an event that is taken.
pub fn take_line(
    script: &Script,
    state: &mut State,
    cursors: &mut [Cursor],
    line: &[u8],
) -> Result<bool, AllocError>
    requires at { AreAt script.now state.old cursors.old }
    requires programs { length script.now.programs ≡ script.now.geometry.cpus }
    requires awaits { (cpu : ℕ) → AllByRecursion HasTries (program_of script.now cpu) }
    ensures taken { result ≡ Ok true → IsLineTaken script.now state.old cursors.old line.now state.new cursors.new }
    ensures refused { result ≡ Ok false → IsLineRefused script.now state.old cursors.old line.now }
{
    match read_event(line) {
        None => Ok(false),
        Some(event) => take_event(script, state, cursors, event),
    }
}
