//! Reading the line of an event.

ghost use Rattle.std.specs.Prelude.{◌≡◌, IfSome, IfNone, Some, None};
ghost use Rattle.nm_event_text.specs.Reading.{wide_in, small_in, maybe_in, ack_of, flag_of, bit_of, cell_of, ack_in, flag_in, bit_in, cell_in, two_in, word_in, value_in, action_in, word_of, number_reply_of, reply_of, act_in, event_of};

use nm_action::{AckTo, Action, ActionKind, Bit, Cell, Event, Reply};
use nm_text::{cut, is_text, read_kind, read_number, strip};

/// A number of 64 bits and the space after it.
#[tactic(auto, unfolding(crate::specs::Reading::wide_in))]
fn wide_in(text: &[u8]) -> Option<(u64, &[u8])>
    ensures some { IfSome result (λ p. wide_in text.now ≡ Some (p.0, p.1.now)) }
    ensures none { IfNone result (wide_in text.now ≡ None) }
{
    let (field, rest) = cut(text, b' ')?;
    let number = read_number(field)?;
    Some((number, rest))
}

/// A number of 32 bits and the space after it.
#[tactic(auto, unfolding(crate::specs::Reading::small_in))]
fn small_in(text: &[u8]) -> Option<(u32, &[u8])>
    ensures some { IfSome result (λ p. small_in text.now ≡ Some (p.0, p.1.now)) }
    ensures none { IfNone result (small_in text.now ≡ None) }
{
    let (number, rest) = wide_in(text)?;
    if number < 1 << 32 {
        Some((number as u32, rest))
    } else {
        None
    }
}

/// A number of 32 bits or a dash, and the space after it.
#[tactic(auto, unfolding(crate::specs::Reading::maybe_in))]
fn maybe_in(text: &[u8]) -> Option<(Option<u32>, &[u8])>
    ensures some { IfSome result (λ p. maybe_in text.now ≡ Some (p.0, p.1.now)) }
    ensures none { IfNone result (maybe_in text.now ≡ None) }
{
    if let Some(rest) = strip(text, b"- ") {
        return Some((None, rest));
    }
    let (number, rest) = small_in(text)?;
    Some((Some(number), rest))
}

/// The acknowledgement of a number.
fn ack_of(number: u64) -> Option<AckTo>
    ensures { result ≡ ack_of number }
{
    match number {
        0 => Some(AckTo::Seen),
        1 => Some(AckTo::Off),
        2 => Some(AckTo::End),
        _ => None,
    }
}

/// The flag of a number.
fn flag_of(number: u64) -> Option<bool>
    ensures { result ≡ flag_of number }
{
    match number {
        0 => Some(false),
        1 => Some(true),
        _ => None,
    }
}

/// The bit of a number.
fn bit_of(number: u64) -> Option<Bit>
    ensures { result ≡ bit_of number }
{
    match number {
        0 => Some(Bit::Hint),
        1 => Some(Bit::Accessed),
        _ => None,
    }
}

/// The cell of a number.
fn cell_of(number: u64, place: u32) -> Option<Cell>
    ensures { result ≡ cell_of number place }
{
    match number {
        0 => Some(Cell::Home(place)),
        1 => Some(Cell::Shadow(place)),
        _ => None,
    }
}

/// An acknowledgement and the space after it.
#[tactic(auto, unfolding(crate::specs::Reading::ack_in))]
fn ack_in(text: &[u8]) -> Option<(AckTo, &[u8])>
    ensures some { IfSome result (λ p. ack_in text.now ≡ Some (p.0, p.1.now)) }
    ensures none { IfNone result (ack_in text.now ≡ None) }
{
    let (number, rest) = wide_in(text)?;
    let ack = ack_of(number)?;
    Some((ack, rest))
}

/// A flag and the space after it.
#[tactic(auto, unfolding(crate::specs::Reading::flag_in))]
fn flag_in(text: &[u8]) -> Option<(bool, &[u8])>
    ensures some { IfSome result (λ p. flag_in text.now ≡ Some (p.0, p.1.now)) }
    ensures none { IfNone result (flag_in text.now ≡ None) }
{
    let (number, rest) = wide_in(text)?;
    let flag = flag_of(number)?;
    Some((flag, rest))
}

/// A bit and the space after it.
#[tactic(auto, unfolding(crate::specs::Reading::bit_in))]
fn bit_in(text: &[u8]) -> Option<(Bit, &[u8])>
    ensures some { IfSome result (λ p. bit_in text.now ≡ Some (p.0, p.1.now)) }
    ensures none { IfNone result (bit_in text.now ≡ None) }
{
    let (number, rest) = wide_in(text)?;
    let bit = bit_of(number)?;
    Some((bit, rest))
}

/// A cell and the space after it.
#[tactic(auto, unfolding(crate::specs::Reading::cell_in))]
fn cell_in(text: &[u8]) -> Option<(Cell, &[u8])>
    ensures some { IfSome result (λ p. cell_in text.now ≡ Some (p.0, p.1.now)) }
    ensures none { IfNone result (cell_in text.now ≡ None) }
{
    let (number, rest) = wide_in(text)?;
    let (place, rest) = small_in(rest)?;
    let cell = cell_of(number, place)?;
    Some((cell, rest))
}

/// Two numbers of 32 bits, each with a space after it.
#[tactic(auto, unfolding(crate::specs::Reading::two_in))]
fn two_in(text: &[u8]) -> Option<(u32, u32, &[u8])>
    ensures some { IfSome result (λ p. two_in text.now ≡ Some (p.0, p.1, p.2.now)) }
    ensures none { IfNone result (two_in text.now ≡ None) }
{
    let (a, rest) = small_in(text)?;
    let (b, rest) = small_in(rest)?;
    Some((a, b, rest))
}

/// A number of 32 bits and one of 64, each with a space after it.
#[tactic(auto, unfolding(crate::specs::Reading::word_in))]
fn word_in(text: &[u8]) -> Option<(u32, u64, &[u8])>
    ensures some { IfSome result (λ p. word_in text.now ≡ Some (p.0, p.1, p.2.now)) }
    ensures none { IfNone result (word_in text.now ≡ None) }
{
    let (a, rest) = small_in(text)?;
    let (b, rest) = wide_in(rest)?;
    Some((a, b, rest))
}

/// Two numbers of 32 bits and one of 64, each with a space after it.
#[tactic(auto, unfolding(crate::specs::Reading::value_in))]
fn value_in(text: &[u8]) -> Option<(u32, u32, u64, &[u8])>
    ensures some { IfSome result (λ p. value_in text.now ≡ Some (p.0, p.1, p.2, p.3.now)) }
    ensures none { IfNone result (value_in text.now ≡ None) }
{
    let (a, b, rest) = two_in(text)?;
    let (c, rest) = wide_in(rest)?;
    Some((a, b, c, rest))
}

/// An action of a kind, by its fields, each with a space after it.
#[tactic(auto, unfolding(crate::specs::Reading::action_in))]
fn action_in(kind: ActionKind, text: &[u8]) -> Option<(Action, &[u8])>
    ensures some { IfSome result (λ p. action_in kind text.now ≡ Some (p.0, p.1.now)) }
    ensures none { IfNone result (action_in kind text.now ≡ None) }
{
    match kind {
        ActionKind::Load => {
            let (vpage, word, rest) = two_in(text)?;
            Some((Action::Load { vpage, word }, rest))
        }
        ActionKind::Store => {
            let (vpage, word, value, rest) = value_in(text)?;
            Some((Action::Store { vpage, word, value }, rest))
        }
        ActionKind::Add => {
            let (vpage, word, value, rest) = value_in(text)?;
            Some((Action::Add { vpage, word, value }, rest))
        }
        ActionKind::Look => {
            let (vpage, rest) = small_in(text)?;
            Some((Action::Look { vpage }, rest))
        }
        ActionKind::Walk => {
            let (vpage, expect, rest) = word_in(text)?;
            let (write, rest) = flag_in(rest)?;
            Some((
                Action::Walk {
                    vpage,
                    expect,
                    write,
                },
                rest,
            ))
        }
        ActionKind::Peek => {
            let (vpage, rest) = small_in(text)?;
            Some((Action::Peek { vpage }, rest))
        }
        ActionKind::Poll => Some((Action::Poll, text)),
        ActionKind::Ack => {
            let (to, rest) = ack_in(text)?;
            Some((Action::Ack { to }, rest))
        }
        ActionKind::Lock => {
            let (page, rest) = small_in(text)?;
            Some((Action::Lock { page }, rest))
        }
        ActionKind::Unlock => {
            let (page, rest) = small_in(text)?;
            Some((Action::Unlock { page }, rest))
        }
        ActionKind::Bump => Some((Action::Bump, text)),
        ActionKind::SeeAck => {
            let (cpu, rest) = small_in(text)?;
            Some((Action::SeeAck { cpu }, rest))
        }
        ActionKind::Raise => {
            let (vpage, rest) = small_in(text)?;
            Some((Action::Raise { vpage }, rest))
        }
        ActionKind::Soften => {
            let (vpage, rest) = small_in(text)?;
            let (bit, rest) = bit_in(rest)?;
            Some((Action::Soften { vpage, bit }, rest))
        }
        ActionKind::Arm => {
            let (vpage, rest) = small_in(text)?;
            Some((Action::Arm { vpage }, rest))
        }
        ActionKind::ClearDirty => {
            let (vpage, rest) = small_in(text)?;
            Some((Action::ClearDirty { vpage }, rest))
        }
        ActionKind::Unmap => {
            let (vpage, rest) = small_in(text)?;
            Some((Action::Unmap { vpage }, rest))
        }
        ActionKind::Map => {
            let (vpage, word, rest) = word_in(text)?;
            Some((Action::Map { vpage, word }, rest))
        }
        ActionKind::Grant => {
            let (vpage, rest) = small_in(text)?;
            Some((Action::Grant { vpage }, rest))
        }
        ActionKind::CopyLoad => {
            let (page, index, rest) = two_in(text)?;
            Some((Action::CopyLoad { page, index }, rest))
        }
        ActionKind::CopyStore => {
            let (page, rest) = maybe_in(text)?;
            let (frame, index, value, rest) = value_in(rest)?;
            Some((
                Action::CopyStore {
                    page,
                    frame,
                    index,
                    value,
                },
                rest,
            ))
        }
        ActionKind::SetHome => {
            let (page, frame, rest) = two_in(text)?;
            Some((Action::SetHome { page, frame }, rest))
        }
        ActionKind::SetShadow => {
            let (page, master, rest) = two_in(text)?;
            let (shadow, rest) = maybe_in(rest)?;
            Some((
                Action::SetShadow {
                    page,
                    master,
                    shadow,
                },
                rest,
            ))
        }
        ActionKind::TakeTurn => {
            let (tier, rest) = small_in(text)?;
            Some((Action::TakeTurn { tier }, rest))
        }
        ActionKind::Scan => {
            let (tier, index, rest) = two_in(text)?;
            Some((Action::Scan { tier, index }, rest))
        }
        ActionKind::GiveFrame => {
            let (frame, rest) = small_in(text)?;
            Some((Action::GiveFrame { frame }, rest))
        }
        ActionKind::PutFrame => {
            let (frame, rest) = small_in(text)?;
            Some((Action::PutFrame { frame }, rest))
        }
        ActionKind::ReleaseTurn => {
            let (tier, rest) = small_in(text)?;
            Some((Action::ReleaseTurn { tier }, rest))
        }
        ActionKind::Mark => {
            let (page, from, rest) = word_in(text)?;
            let (to, rest) = wide_in(rest)?;
            Some((Action::Mark { page, from, to }, rest))
        }
        ActionKind::Read => {
            let (page, rest) = small_in(text)?;
            let (cell, rest) = cell_in(rest)?;
            Some((Action::Read { page, cell }, rest))
        }
    }
}

/// The number after a word.
#[tactic(auto, unfolding(crate::specs::Reading::word_of))]
fn word_of(text: &[u8], word: &[u8]) -> Option<u64>
    ensures { result ≡ word_of word.now text.now }
{
    let rest = strip(text, word)?;
    read_number(rest)
}

/// A reply that has a number.
#[tactic(auto, unfolding(crate::specs::Reading::number_reply_of))]
fn number_reply_of(text: &[u8]) -> Option<Reply>
    ensures { result ≡ number_reply_of text.now }
{
    if let Some(n) = word_of(text, b"word ") {
        return Some(Reply::Word(n));
    }
    if let Some(n) = word_of(text, b"busy ") {
        return Some(Reply::Busy(n));
    }
    let n = word_of(text, b"lost ")?;
    Some(Reply::Lost(n))
}

/// A reply, which ends a line.
#[tactic(auto, unfolding(crate::specs::Reading::reply_of))]
fn reply_of(text: &[u8]) -> Option<Reply>
    ensures { result ≡ reply_of text.now }
{
    if is_text(text, b"done") {
        Some(Reply::Done)
    } else {
        number_reply_of(text)
    }
}

/// An action: its kind and its fields, each with a space after it.
#[tactic(auto, unfolding(crate::specs::Reading::act_in))]
fn act_in(text: &[u8]) -> Option<(Action, &[u8])>
    ensures some { IfSome result (λ p. act_in text.now ≡ Some (p.0, p.1.now)) }
    ensures none { IfNone result (act_in text.now ≡ None) }
{
    let (word, rest) = cut(text, b' ')?;
    let kind = read_kind(word)?;
    action_in(kind, rest)
}

/// The event of a line.
#[tactic(auto, unfolding(crate::specs::Reading::event_of))]
pub(crate) fn event_of(line: &[u8]) -> Option<Event>
    ensures { result ≡ event_of line.now }
{
    let (actor, rest) = small_in(line)?;
    let (action, rest) = act_in(rest)?;
    let rest = strip(rest, b"= ")?;
    let reply = reply_of(rest)?;
    Some(Event {
        actor,
        action,
        reply,
    })
}
