//! The fields of a script's lines.

ghost use Rattle.std.specs.Prelude.{◌≡◌, ◌≤◌, ◌<◌, is_some, codes, IfSome, IfNone, IfOk, Some, None};
ghost use Rattle.nm_text.specs.Cuts.{strip_of};
ghost use Rattle.nm_script.specs.LineFaults.{page_word_of};
ghost use Rattle.nm_script.specs.Fields.{shuffle_of, right_of, map_of, is_actor, go_of};
ghost use Rattle.nm_script.specs.Reading.{number_in, ranged_in, below_in};

use crate::fault::ScriptFault;
use nm_action::ActionKind;
use nm_text::{cut, is_text, read_kind, read_number, strip, three_fields};

/// The number and the turns of a shuffle.
#[tactic(auto, unfolding(crate::specs::Fields::shuffle_of))]
pub fn shuffle_fields(line: &[u8]) -> Option<(&[u8], &[u8])>
    ensures some { IfSome result (λ f. shuffle_of line.now ≡ Some (f.0.now, f.1.now)) }
    ensures none { IfNone result (shuffle_of line.now ≡ None) }
{
    let (number, word, turns) = three_fields(line, b"shuffle ")?;
    if is_text(word, b"turns") {
        Some((number, turns))
    } else {
        None
    }
}

/// Whether a mapping may be written: `rw`, or `ro`.
#[tactic(auto, unfolding(crate::specs::Fields::right_of))]
fn read_right(field: &[u8]) -> Option<bool>
    ensures { result ≡ right_of field.now }
{
    if is_text(field, b"rw") {
        Some(true)
    } else if is_text(field, b"ro") {
        Some(false)
    } else {
        None
    }
}

/// The virtual page, the backing page and the right of a mapping.
#[tactic(auto, unfolding(crate::specs::Fields::map_of))]
pub fn map_fields(line: &[u8]) -> Option<(&[u8], &[u8], bool)>
    ensures some { IfSome result (λ f. map_of line.now ≡ Some (f.0.now, f.1.now, f.2)) }
    ensures none { IfNone result (map_of line.now ≡ None) }
{
    let (v, b, right) = three_fields(line, b"map ")?;
    let writable = read_right(right)?;
    Some((v, b, writable))
}

/// Whether the field is that of an actor: `m`, `r`, or `c` with any bytes after it.
#[tactic(auto, unfolding(crate::specs::Fields::is_actor))]
fn is_actor(field: &[u8]) -> bool
    ensures { result ≡ is_actor field.now }
{
    is_text(field, b"m") || is_text(field, b"r") || strip(field, b"c").is_some()
}

/// The actor, the kind of action and the count of an item of a plan.
#[tactic(auto, unfolding(crate::specs::Fields::go_of))]
pub fn go_fields(line: &[u8]) -> Option<(&[u8], ActionKind, &[u8])>
    ensures some { IfSome result (λ f. go_of line.now ≡ Some (f.0.now, f.1, f.2.now)) }
    ensures none { IfNone result (go_of line.now ≡ None) }
{
    let (actor, word, count) = three_fields(line, b"go ")?;
    let kind = read_kind(word)?;
    if is_actor(actor) {
        Some((actor, kind, count))
    } else {
        None
    }
}

/// A field split at its first dot.
#[tactic(auto, unfolding(crate::specs::LineFaults::page_word_of))]
pub fn place_fields(field: &[u8]) -> (&[u8], &[u8])
    ensures { page_word_of field.now ≡ (result.0.now, result.1.now) }
{
    match cut(field, b'.') {
        None => (field, b""),
        Some(parts) => parts,
    }
}

/// The number that the field spells.
#[tactic(auto, unfolding(crate::specs::Reading::number_in))]
pub fn number_in(field: &[u8]) -> Result<u64, ScriptFault>
    ensures { result ≡ number_in field.now }
{
    read_number(field).ok_or(ScriptFault::BadNumber)
}

/// The number from `low` to `high` that the field spells.
#[tactic(auto, unfolding(crate::specs::Reading::ranged_in))]
pub fn ranged_in(low: u32, high: u32, field: &[u8]) -> Result<u32, ScriptFault>
    ensures value { result ≡ ranged_in low high field.now }
    ensures range { IfOk result (λ n. (low ≤ n) × (n ≤ high)) }
{
    let number = number_in(field)?;
    if u64::from(low) <= number && number <= u64::from(high) {
        Ok(number as u32)
    } else {
        Err(ScriptFault::OutOfRange)
    }
}

/// The number below `end` that the field spells.
#[tactic(auto, unfolding(crate::specs::Reading::below_in))]
pub fn below_in(end: u32, field: &[u8]) -> Result<u32, ScriptFault>
    ensures value { result ≡ below_in end field.now }
    ensures range { IfOk result (λ n. n < end) }
{
    let number = number_in(field)?;
    if number < u64::from(end) {
        Ok(number as u32)
    } else {
        Err(ScriptFault::OutOfRange)
    }
}
