//! The lines of a case's input and of its output, in which each byte can be written.

use nm_text::{cut, push_number, read_number, strip};
use std::alloc::{AllocError, Global};

/// The most bytes of an output that are written; of a longer one its length and its last lines are.
const MOST_SHOWN: usize = 16_384;

/// The most bytes of the last lines of a longer output.
const LAST_SHOWN: usize = 512;

/// How far an escape has come.
#[derive(Clone, Copy)]
enum Escape {
    None,
    Backslash,
    NoDigit,
    OneDigit(u8),
}

/// Appends the bytes that a line of an input says: its own and a newline, but that `\\` is one backslash, `\xHH` the byte of
/// these two digits, and a backslash at the end is no byte and takes the newline away. After `\repeat N ` come the bytes of
/// the rest, N times; after `\count A B ` those of the rest with each number from A to B in place of `#`. False where the line
/// says no bytes.
pub fn push_said(out: &mut Vec<u8>, line: &[u8]) -> Result<bool, AllocError> {
    if let Some(rest) = strip(line, b"\\repeat ") {
        push_repeated(out, rest)
    } else if let Some(rest) = strip(line, b"\\count ") {
        push_counted(out, rest)
    } else {
        push_once(out, line)
    }
}

/// Appends what a line says as often as the number before it tells.
fn push_repeated(out: &mut Vec<u8>, rest: &[u8]) -> Result<bool, AllocError> {
    let Some((field, line)) = cut(rest, b' ') else {
        return Ok(false);
    };
    let Some(times) = read_number(field) else {
        return Ok(false);
    };
    let mut said = Vec::new(*out.allocator());
    let says = push_once(&mut said, line)?;
    for _ in 0..times {
        out.extend_from_slice(&said)?;
    }
    Ok(says)
}

/// Appends what a line says with each number from one to another, which stand before it.
fn push_counted(out: &mut Vec<u8>, rest: &[u8]) -> Result<bool, AllocError> {
    let Some((first, rest)) = cut(rest, b' ') else {
        return Ok(false);
    };
    let Some((last, line)) = cut(rest, b' ') else {
        return Ok(false);
    };
    let (Some(first), Some(last)) = (read_number(first), read_number(last)) else {
        return Ok(false);
    };
    for number in first..=last {
        let numbered = with_number(line, number, *out.allocator())?;
        if !push_once(out, &numbered)? {
            return Ok(false);
        }
    }
    Ok(true)
}

/// A line with a number in place of each `#`.
fn with_number(line: &[u8], number: u64, alloc: Global) -> Result<Vec<u8>, AllocError> {
    let mut numbered = Vec::new(alloc);
    for &byte in line {
        match byte {
            b'#' => push_number(&mut numbered, number)?,
            _ => numbered.push(byte)?,
        }
    }
    Ok(numbered)
}

/// Appends the bytes that a line says once.
fn push_once(out: &mut Vec<u8>, line: &[u8]) -> Result<bool, AllocError> {
    let mut escape = Escape::None;
    for &byte in line {
        escape = match escape {
            Escape::None if byte == b'\\' => Escape::Backslash,
            Escape::Backslash if byte == b'x' => Escape::NoDigit,
            Escape::None => push_plain(out, byte)?,
            Escape::Backslash if byte == b'\\' => push_plain(out, byte)?,
            Escape::Backslash => return Ok(false),
            Escape::NoDigit => match digit_of(byte) {
                Some(high) => Escape::OneDigit(high),
                None => return Ok(false),
            },
            Escape::OneDigit(high) => match digit_of(byte) {
                Some(low) => push_plain(out, high << 4 | low)?,
                None => return Ok(false),
            },
        };
    }
    match escape {
        Escape::None => out.push(b'\n')?,
        Escape::Backslash => {}
        Escape::NoDigit | Escape::OneDigit(_) => return Ok(false),
    }
    Ok(true)
}

/// Appends a byte; no escape is open then.
fn push_plain(out: &mut Vec<u8>, byte: u8) -> Result<Escape, AllocError> {
    out.push(byte)?;
    Ok(Escape::None)
}

/// The number of a hexadecimal digit in lower case.
fn digit_of(byte: u8) -> Option<u8> {
    match byte {
        b'0'..=b'9' => Some(byte - b'0'),
        b'a'..=b'f' => Some(byte - b'a' + 10),
        _ => None,
    }
}

/// Appends the lines that say these bytes. Of many bytes a line `\length N` stands before the last lines alone.
pub fn push_lines(out: &mut Vec<u8>, bytes: &[u8]) -> Result<(), AllocError> {
    if bytes.len() > MOST_SHOWN {
        out.extend_from_slice(b"\\length ")?;
        push_number(out, bytes.len() as u64)?;
        out.push(b'\n')?;
        let last = &bytes[bytes.len() - LAST_SHOWN..];
        let lines = match cut(last, b'\n') {
            Some((_, lines)) => lines,
            None => last,
        };
        return push_whole(out, lines);
    }
    push_whole(out, bytes)
}

/// Appends the lines that say these bytes.
fn push_whole(out: &mut Vec<u8>, bytes: &[u8]) -> Result<(), AllocError> {
    for &byte in bytes {
        push_escaped(out, byte)?;
    }
    if !bytes.is_empty() && bytes[bytes.len() - 1] != b'\n' {
        out.extend_from_slice(b"\\\n")?;
    }
    Ok(())
}

/// Appends what says this byte.
fn push_escaped(out: &mut Vec<u8>, byte: u8) -> Result<(), AllocError> {
    match byte {
        b'\\' => out.extend_from_slice(b"\\\\"),
        b'\n' | b' '..=b'~' => Ok(out.push(byte)?),
        _ => {
            out.extend_from_slice(b"\\x")?;
            out.push(digit_byte(byte >> 4))?;
            Ok(out.push(digit_byte(byte & 15))?)
        }
    }
}

/// The hexadecimal digit of a number below 16.
fn digit_byte(number: u8) -> u8 {
    match number {
        0..=9 => b'0' + number,
        10..=15 => b'a' + (number - 10),
        _ => b'?',
    }
}
