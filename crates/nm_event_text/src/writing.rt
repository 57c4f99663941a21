//! Writing the line of an event.

ghost use Rattle.std.specs.Prelude.{◌≡◌, ◌++◌, ◌∷◌, [], codes, OnOk, Some};
ghost use Rattle.std.specs.Fmt.{decimal};
ghost use Rattle.nm_text.specs.Kinds.{kind_text};
ghost use Rattle.nm_action.specs.Kinds.{kind_of};
ghost use Rattle.nm_event_text.specs.Events.{flag_number, ack_number, bit_number, field_text, fields_of, fields_before, reply_text, event_text};

use nm_action::{AckTo, Action, Bit, Cell, Event, Reply};
use nm_text::{kind_word, push_field, push_number};
use std::alloc::AllocError;

/// A number and a space.
fn push_wide(out: &mut Vec<u8>, n: u64) -> Result<(), AllocError>
    ensures { OnOk result (out.new.items ≡ out.old.items ++ fields_before (Some n ∷ []) []) }
{
    push_number(out, n)?;
    out.push(b' ')?;
    Ok(())
}

/// A number of 32 bits and a space.
fn push_small(out: &mut Vec<u8>, n: u32) -> Result<(), AllocError>
    ensures { OnOk result (out.new.items ≡ out.old.items ++ fields_before (Some n ∷ []) []) }
{
    push_wide(out, u64::from(n))
}

/// A number or a dash, and a space.
fn push_maybe(out: &mut Vec<u8>, n: Option<u32>) -> Result<(), AllocError>
    ensures { OnOk result (out.new.items ≡ out.old.items ++ fields_before (n ∷ []) []) }
{
    match n {
        None => out.extend_from_slice(b"- "),
        Some(n) => push_small(out, n),
    }
}

/// Two numbers of 32 bits.
fn push_two(out: &mut Vec<u8>, a: u32, b: u32) -> Result<(), AllocError>
    ensures { OnOk result (out.new.items ≡ out.old.items ++ fields_before (Some a ∷ Some b ∷ []) []) }
{
    push_small(out, a)?;
    push_small(out, b)
}

/// A number of 32 bits and one of 64.
fn push_word(out: &mut Vec<u8>, a: u32, b: u64) -> Result<(), AllocError>
    ensures { OnOk result (out.new.items ≡ out.old.items ++ fields_before (Some a ∷ Some b ∷ []) []) }
{
    push_small(out, a)?;
    push_wide(out, b)
}

/// Two numbers of 32 bits and one of 64.
fn push_value(out: &mut Vec<u8>, a: u32, b: u32, c: u64) -> Result<(), AllocError>
    ensures { OnOk result (out.new.items ≡ out.old.items ++ fields_before (Some a ∷ Some b ∷ Some c ∷ []) []) }
{
    push_small(out, a)?;
    push_small(out, b)?;
    push_wide(out, c)
}

/// The number of an acknowledgement.
fn ack_number(to: AckTo) -> u64
    ensures { result ≡ ack_number to }
{
    match to {
        AckTo::Seen => 0,
        AckTo::Off => 1,
        AckTo::End => 2,
    }
}

/// The number of a bit.
fn bit_number(bit: Bit) -> u64
    ensures { result ≡ bit_number bit }
{
    match bit {
        Bit::Hint => 0,
        Bit::Accessed => 1,
    }
}

/// The number of a flag.
fn flag_number(flag: bool) -> u64
    ensures { result ≡ flag_number flag }
{
    if flag { 1 } else { 0 }
}

/// The fields of an action, each with a space after it.
fn push_fields_of(out: &mut Vec<u8>, action: Action) -> Result<(), AllocError>
    ensures { OnOk result (out.new.items ≡ out.old.items ++ fields_before (fields_of action) []) }
{
    match action {
        Action::Load { vpage, word } => push_two(out, vpage, word),
        Action::Store { vpage, word, value } | Action::Add { vpage, word, value } => push_value(
            out, vpage, word, value,
        ),
        Action::Look { vpage }
        | Action::Peek { vpage }
        | Action::Raise { vpage }
        | Action::Arm { vpage }
        | Action::ClearDirty { vpage }
        | Action::Unmap { vpage }
        | Action::Grant { vpage } => push_small(out, vpage),
        Action::Walk {
            vpage,
            expect,
            write,
        } => {
            push_word(out, vpage, expect)?;
            push_wide(out, flag_number(write))
        }
        Action::Poll | Action::Bump => Ok(()),
        Action::Ack { to } => push_wide(out, ack_number(to)),
        Action::Lock { page } | Action::Unlock { page } => push_small(out, page),
        Action::SeeAck { cpu } => push_small(out, cpu),
        Action::Soften { vpage, bit } => push_word(out, vpage, bit_number(bit)),
        Action::Map { vpage, word } => push_word(out, vpage, word),
        Action::CopyLoad { page, index } => push_two(out, page, index),
        Action::CopyStore {
            page,
            frame,
            index,
            value,
        } => {
            push_maybe(out, page)?;
            push_value(out, frame, index, value)
        }
        Action::SetHome { page, frame } => push_two(out, page, frame),
        Action::SetShadow {
            page,
            master,
            shadow,
        } => {
            push_two(out, page, master)?;
            push_maybe(out, shadow)
        }
        Action::TakeTurn { tier } | Action::ReleaseTurn { tier } => push_small(out, tier),
        Action::Scan { tier, index } => push_two(out, tier, index),
        Action::GiveFrame { frame } | Action::PutFrame { frame } => push_small(out, frame),
        Action::Mark { page, from, to } => {
            push_word(out, page, from)?;
            push_wide(out, to)
        }
        Action::Read {
            page,
            cell: Cell::Home(place),
        } => {
            push_two(out, page, 0)?;
            push_small(out, place)
        }
        Action::Read {
            page,
            cell: Cell::Shadow(place),
        } => {
            push_two(out, page, 1)?;
            push_small(out, place)
        }
    }
}

/// A reply.
fn push_reply(out: &mut Vec<u8>, reply: Reply) -> Result<(), AllocError>
    ensures { OnOk result (out.new.items ≡ out.old.items ++ reply_text reply) }
{
    match reply {
        Reply::Done => out.extend_from_slice(b"done"),
        Reply::Word(n) => push_field(out, b"word ", n),
        Reply::Busy(n) => push_field(out, b"busy ", n),
        Reply::Lost(n) => push_field(out, b"lost ", n),
    }
}

/// The kind and the fields of an action, each with a space after it.
fn push_action(out: &mut Vec<u8>, action: Action) -> Result<(), AllocError>
    ensures { OnOk result (out.new.items ≡ out.old.items ++ (kind_text (kind_of action) ++ 32 ∷ fields_before (fields_of action) [])) }
{
    out.extend_from_slice(kind_word(action.kind()))?;
    out.push(b' ')?;
    push_fields_of(out, action)
}

/// Writes the line of an event, without its newline.
#[tactic(auto, using(crate::proofs::Writings::event_joined))]
pub fn push_event(out: &mut Vec<u8>, event: Event) -> Result<(), AllocError>
    ensures { OnOk result (out.new.items ≡ out.old.items ++ event_text event) }
{
    push_small(out, event.actor)?;
    push_action(out, event.action)?;
    out.extend_from_slice(b"= ")?;
    push_reply(out, event.reply)
}
