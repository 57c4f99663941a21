//! A watcher of a run that writes the lines of its events.

ghost use Rattle.std.specs.Prelude.{◌≡◌, ◌++◌, ◌∷◌, [], OnOk};
ghost use Rattle.std.specs.List.{AllByRecursion};
ghost use Rattle.nm_event_text.specs.Events.{FitsEvent};
ghost use Rattle.nm_journal_text.specs.Journals.{events_text};
ghost use Rattle.nm_schedule.specs.Played.{events_of};
ghost use Rattle.nm_journal_writer.specs.Written.{AreWritten};

use nm_action::{Event, Heard, Turn};
use nm_core::State;
use nm_journal_print::push_event_line;
use nm_play::Watcher;
use nm_schedule::Played;
use std::alloc::{AllocError, Global};

/// Writes the line of each event of a run as it is made: what grows with the run is their text alone.
#[derive(Drop)]
pub struct JournalWriter {
    /// The lines of the events so far, each with its newline.
    pub lines: Vec<u8>,
}

impl JournalWriter {
    /// Has heard nothing.
    pub fn new(alloc: Global) -> JournalWriter
        ensures { AreWritten result.lines.items [] }
    {
        JournalWriter {
            lines: Vec::new(alloc),
        }
    }
}

impl Watcher for JournalWriter {
    ghost use Rattle.nm_schedule.specs.Played.{events_of};
    ghost use Rattle.nm_journal_writer.specs.Written.{AreWritten};

    ghost kept = { λ w _ played. AreWritten w.lines.items (events_of played) };

    ghost seen = { λ w _ played _ _. AreWritten w.lines.items (events_of played) };

    fn sees(&mut self, _state: &State, _actor: u32, _turn: Turn) -> Result<(), AllocError> {
        Ok(())
    }

    fn hears(&mut self, played: Played) -> Result<(), AllocError> {
        push_played(&mut self.lines, played)?;
        Ok(())
    }
}

/// Writes the line of the event of a turn, where it was an action.
fn push_played(out: &mut Vec<u8>, played: Played) -> Result<(), AllocError>
    ensures text { OnOk result (out.new.items ≡ out.old.items ++ events_text (events_of (played ∷ []))) }
    ensures fits { AllByRecursion FitsEvent (events_of (played ∷ [])) }
{
    if let (Turn::Do(action), Heard::Answer(reply)) = (played.turn, played.heard) {
        push_event_line(
            out,
            Event {
                actor: played.actor,
                action,
                reply,
            },
        )?;
    }
    Ok(())
}
