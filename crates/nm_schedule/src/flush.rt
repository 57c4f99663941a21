//! Flushes, as far as the schedule follows them: when a turn stalls.

ghost use Rattle.std.specs.Prelude.{◌≡◌};
ghost use Rattle.nm_schedule.specs.Standing.{bumped_by, stalls_by};

use nm_action::{Action, Heard, Reply, Turn};

/// What the acknowledgement of a processor is that has ended.
const END_WORD: u64 = u64::MAX;

/// The word that the Bump of an actor's flush found, after a turn more; none outside a flush.
pub(crate) fn bumped_after(bumped: Option<u64>, turn: Turn, heard: Heard) -> Option<u64>
    ensures { result ≡ bumped_by bumped turn heard }
{
    match (turn, heard) {
        (Turn::Do(Action::Bump), Heard::Answer(Reply::Word(word))) => Some(word),
        (Turn::Do(Action::SeeAck { .. }), _) => bumped,
        _ => None,
    }
}

/// Whether a turn of an actor stalls that is in such a flush, or in none.
pub(crate) fn stalls(bumped: Option<u64>, turn: Turn, heard: Heard) -> bool
    ensures { result ≡ stalls_by bumped turn heard }
{
    match (turn, heard) {
        (Turn::Do(_), Heard::Answer(Reply::Busy(_))) => true,
        (Turn::Do(Action::SeeAck { .. }), Heard::Answer(Reply::Word(word))) => match bumped {
            Some(found) => word <= found,
            None => word != END_WORD,
        },
        _ => false,
    }
}
