//! The lines of events.

ghost use Rattle.std.specs.Prelude.{◌≡◌, ◌++◌, OnOk};
ghost use Rattle.std.specs.List.{AllByRecursion};
ghost use Rattle.nm_script.specs.Items.{line};
ghost use Rattle.nm_event_text.specs.Events.{FitsEvent, event_text};
ghost use Rattle.nm_journal_text.specs.Journals.{events_text};

use nm_action::Event;
use nm_event_text::push_event;
use std::alloc::AllocError;

/// Writes the line of an event, and its newline. The numbers of an event that lies in memory fit its fields. `AllocError` comes
/// where there is no memory for the line.
pub fn push_event_line(out: &mut Vec<u8>, event: Event) -> Result<(), AllocError>
    ensures text { OnOk result (out.new.items ≡ out.old.items ++ line (event_text event)) }
    ensures fits { FitsEvent event }
{
    push_event(out, event)?;
    out.push(b'\n')?;
    Ok(())
}

/// Writes the lines of events.
pub(crate) fn push_events(out: &mut Vec<u8>, events: &[Event]) -> Result<(), AllocError>
    ensures text { OnOk result (out.new.items ≡ out.old.items ++ events_text events.now) }
    ensures fits { OnOk result (AllByRecursion FitsEvent events.now) }
{
    for event in events {
        push_event_line(out, *event)?;
    }
    Ok(())
}
