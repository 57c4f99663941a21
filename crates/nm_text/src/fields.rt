//! The lines of a text, and the fields of a line, which single spaces part.

ghost use Rattle.std.specs.Prelude.{◌≡◌, ◌≢◌, ◌<◌, ◌∷◌, [], length, IfSome, IfNone, Some, None};
ghost use Rattle.std.specs.Str.{bytes_eq};
ghost use Rattle.nm_text.specs.Fields.{lines_of, unspaced_of, one_of, two_of, three_of};

use crate::cuts::{cut, strip};

/// Whether two texts are the same bytes.
pub fn is_text(a: &[u8], b: &[u8]) -> bool
    ensures { result ≡ bytes_eq a.now b.now }
{
    a == b
}

/// The field, where it has no space.
#[tactic(auto, unfolding(crate::specs::Fields::unspaced_of))]
fn unspaced(field: &[u8]) -> Option<&[u8]>
    ensures some { IfSome result (λ f. unspaced_of field.now ≡ Some f.now) }
    ensures none { IfNone result (unspaced_of field.now ≡ None) }
{
    match cut(field, b' ') {
        None => Some(field),
        Some(_) => None,
    }
}

/// The one field after a word.
#[tactic(auto, unfolding(crate::specs::Fields::one_of))]
pub fn one_field<'a>(line: &'a [u8], word: &[u8]) -> Option<&'a [u8]>
    ensures some { IfSome result (λ f. one_of word.now line.now ≡ Some f.now) }
    ensures none { IfNone result (one_of word.now line.now ≡ None) }
{
    let rest = strip(line, word)?;
    unspaced(rest)
}

/// The two fields after a word.
#[tactic(auto, unfolding(crate::specs::Fields::two_of))]
pub fn two_fields<'a>(line: &'a [u8], word: &[u8]) -> Option<(&'a [u8], &'a [u8])>
    ensures some { IfSome result (λ f. two_of word.now line.now ≡ Some (f.0.now, f.1.now)) }
    ensures none { IfNone result (two_of word.now line.now ≡ None) }
{
    let rest = strip(line, word)?;
    let (a, rest) = cut(rest, b' ')?;
    let b = unspaced(rest)?;
    Some((a, b))
}

/// The three fields after a word.
#[tactic(auto, unfolding(crate::specs::Fields::three_of))]
pub fn three_fields<'a>(line: &'a [u8], word: &[u8]) -> Option<(&'a [u8], &'a [u8], &'a [u8])>
    ensures some { IfSome result (λ f. three_of word.now line.now ≡ Some (f.0.now, f.1.now, f.2.now)) }
    ensures none { IfNone result (three_of word.now line.now ≡ None) }
{
    let rest = strip(line, word)?;
    let (a, rest) = cut(rest, b' ')?;
    let (b, rest) = cut(rest, b' ')?;
    let c = unspaced(rest)?;
    Some((a, b, c))
}

/// The first line of the text and what stands after it.
pub fn first_line(text: &[u8]) -> (&[u8], &[u8])
    requires { text.now ≢ [] }
    ensures lines { lines_of text.now ≡ result.0.now ∷ lines_of result.1.now }
    ensures shorter { length result.1.now < length text.now }
{
    match cut(text, b'\n') {
        None => (text, b""),
        Some(parts) => parts,
    }
}
