//! The script part of a journal.

ghost use Rattle.std.specs.Prelude.{◌≡◌, ◌<◌, ◌^◌, length, None};
ghost use Rattle.nm_text.specs.Cuts.{cut_of};
ghost use Rattle.nm_journal.specs.Parting.{IsPartedAt, IsPassedTo};

use nm_text::{cut, is_text};

/// How many bytes the script part has, and how many lines: all lines before the first line `events`.
pub fn script_part(bytes: &[u8]) -> (usize, u32)
    requires { length bytes.now < 2 ^ 32 }
    ensures { IsPartedAt bytes.now result.0 result.1 }
{
    let mut rest = bytes;
    let mut lines = 0;
    while !rest.is_empty() {
        let (line, after) = match cut(rest, b'\n') {
            Some(parts) => parts,
            None => return last_part(bytes, rest, lines),
        };
        if is_text(line, b"events") {
            return (bytes.len() - rest.len(), lines);
        }
        rest = after;
        lines += 1;
    }
    (bytes.len(), lines)
}

/// The script part where the last line lacks its newline.
fn last_part(bytes: &[u8], rest: &[u8], lines: u32) -> (usize, u32)
    requires few { length bytes.now < 2 ^ 32 }
    requires passed { IsPassedTo bytes.now rest.now lines }
    requires last { cut_of 10 rest.now ≡ None }
    requires some { 0 < length rest.now }
    ensures { IsPartedAt bytes.now result.0 result.1 }
{
    if is_text(rest, b"events") {
        (bytes.len() - rest.len(), lines)
    } else {
        (bytes.len(), lines + 1)
    }
}
