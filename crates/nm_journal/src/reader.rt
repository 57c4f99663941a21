//! The lines of a journal's events.

ghost use Rattle.std.specs.Prelude.{◌≡◌, ◌+◌, ◌<◌, ◌≤◌, ◌^◌, ℕ, length, IfOk, slice_index_or, Option};
ghost use Rattle.std.specs.Option.{option_map};
ghost use Rattle.std.specs.List.{AllByRecursion};
ghost use Rattle.nm_core.specs.State.{start};
ghost use Rattle.nm_script.specs.Script.{IsScript};
ghost use Rattle.nm_follow.specs.Cursors.{new_cursor};
ghost use Rattle.nm_journal_text.specs.Taken.{AreTaken, cursor_of};
ghost use Rattle.nm_journal_text.specs.Following.{after_length, IsFollowed, IsTakenTo};

use crate::event::take_line;
use nm_core::State;
use nm_follow::Cursor;
use nm_script::Script;
use nm_text::{cut, is_text};
use std::alloc::AllocError;

/// Takes the lines of events one by one, as far as each is one with which some journal of the script that holds goes on. It gives how
/// many were taken, and what stands behind the line report where it stopped there. Beside the state and the cursors it keeps no event.
pub fn follow<'a>(
    script: &Script,
    state: &mut State,
    cursors: &mut [Cursor],
    text: &'a [u8],
) -> Result<(u32, Option<&'a [u8]>), AllocError>
    requires script { IsScript script.now }
    requires begins { IsTakenTo script.now text.now text.now 0 state.old cursors.old }
    requires few { length text.now < 2 ^ 32 }
    ensures few { IfOk result (λ r. r.0 + after_length (option_map (λ a. a.now) r.1) ≤ length text.now) }
    ensures followed { IfOk result (λ r. IsFollowed script.now text.now r.0 (option_map (λ a. a.now) r.1) state.new cursors.new) }
{
    let mut rest = text;
    let mut count = 0;
    while !rest.is_empty() {
        let (line, after) = match cut(rest, b'\n') {
            Some(parts) => parts,
            None => return Ok((count, None)),
        };
        if is_text(line, b"report") {
            return Ok((count, Some(after)));
        }
        if !take_line(script, state, cursors, line)? {
            return Ok((count, None));
        }
        rest = after;
        count += 1;
    }
    Ok((count, None))
}
