//! The first line in which two texts differ.

ghost use Rattle.std.specs.Prelude.{◌≡◌, ◌<◌, ◌≤◌, ◌^◌, ℕ, length, Some, None};
ghost use Rattle.nm_journal_text.specs.Differing.{IsDifferentAt, AreSameTo};

use nm_text::{cut, is_text};

/// How many lines of a text are those of the text that is told, where the next one isn't. None where they are the same.
pub fn first_difference(told: &[u8], text: &[u8]) -> Option<u32>
    requires { length text.now < 2 ^ 32 }
    ensures none { result ≡ None → told.now ≡ text.now }
    ensures few { (n : ℕ) → result ≡ Some n → n ≤ length text.now }
    ensures some { (n : ℕ) → result ≡ Some n → IsDifferentAt told.now text.now n }
{
    let mut tail = told;
    let mut rest = text;
    let mut count = 0;
    while !tail.is_empty() {
        let (line, after) = match cut(tail, b'\n') {
            Some(parts) => parts,
            None => return Some(count),
        };
        let (other, behind) = match cut(rest, b'\n') {
            Some(parts) => parts,
            None => return Some(count),
        };
        if !is_text(line, other) {
            return Some(count);
        }
        tail = after;
        rest = behind;
        count += 1;
    }
    if rest.is_empty() { None } else { Some(count) }
}
