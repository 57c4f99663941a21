//! Cases, line by line.

use crate::faults::Fault;
use crate::files::{NamedFile, named_file};
use crate::lines::push_said;
use nm_text::{is_text, read_number, strip, three_fields, two_fields};
use std::alloc::{AllocError, Global};
use std::mem;
use std::rt::Files;

/// What a case asks.
#[derive(Drop)]
pub enum Ask {
    /// What the program does with these words.
    Words(Vec<String>),
    /// The canonical text of the script that the input says.
    Script,
    /// The trace of the script that the input says.
    Trace,
}

/// How a source gives bytes or a sink takes them.
#[derive(Clone, Copy)]
pub struct Device {
    /// The most bytes that a call moves.
    pub piece: u32,
    /// The number of the call that fails, from 1; 0 where none does.
    pub fails: u64,
    /// The last of the numbers that are tried from that one on, each in a call of the program.
    pub last: u64,
}

/// A device that moves all that it can, and never fails.
const WHOLE: Device = Device {
    piece: u32::MAX,
    fails: 0,
    last: 0,
};

/// A case.
#[derive(Drop)]
pub struct Case {
    /// What it is called.
    pub title: Vec<u8>,
    /// How the source gives the input.
    pub source: Device,
    /// How the sink takes the output.
    pub sink: Device,
    /// The file that may be named in place of an output with its bytes.
    pub like: Option<NamedFile>,
    /// What it asks.
    pub ask: Ask,
    /// The bytes that there are to read.
    pub input: Vec<u8>,
}

/// Where the next line stands.
#[derive(Drop)]
enum Place {
    /// Between two cases.
    Between,
    /// Behind the title of a case, before the line that says what it asks.
    Head(Case),
    /// In the input of a case.
    Input(Case),
}

/// Reads cases that are given line by line.
#[derive(Drop)]
pub struct CaseReader {
    line: u64,
    place: Place,
}

impl CaseReader {
    /// A reader before the first line.
    pub fn new() -> CaseReader {
        CaseReader {
            line: 0,
            place: Place::Between,
        }
    }

    /// Takes the next line, without its newline, and gives the case that ends with it.
    pub fn read_line(
        &mut self,
        rt: &(impl Files + AllocGlobal),
        line: &[u8],
    ) -> Result<Option<Case>, Fault> {
        self.line = self.line.saturating_add(1);
        let place = mem::replace(&mut self.place, Place::Between);
        let next = match place {
            Place::Input(case) if is_text(line, b"end") => return Ok(Some(case)),
            Place::Input(mut case) => {
                if push_input(rt, &mut case.input, line)? {
                    Some(Place::Input(case))
                } else {
                    None
                }
            }
            Place::Head(case) => place_after_head(rt, case, line)?,
            Place::Between => place_after_case(rt.alloc(), line)?,
        };
        self.place = next.ok_or(Fault::Line(self.line))?;
        Ok(None)
    }

    /// Refuses a text that ends within a case.
    pub fn end(&self) -> Result<(), Fault> {
        match self.place {
            Place::Between => Ok(()),
            Place::Head(_) | Place::Input(_) => Err(Fault::Line(self.line)),
        }
    }
}

/// The place behind a line that stands between two cases: the title of the next, an empty line or a remark.
fn place_after_case(alloc: Global, line: &[u8]) -> Result<Option<Place>, AllocError> {
    if line.is_empty() || line[0] == b'#' {
        return Ok(Some(Place::Between));
    }
    let Some(title) = strip(line, b"case ") else {
        return Ok(None);
    };
    Ok(Some(Place::Head(Case {
        title: Vec::from_slice(alloc, title)?,
        source: WHOLE,
        sink: WHOLE,
        like: None,
        ask: Ask::Script,
        input: Vec::new(alloc),
    })))
}

/// Appends what a line of an input says: the bytes of the file that it names, or its own. False where it says neither.
fn push_input(
    rt: &(impl Files + AllocGlobal),
    input: &mut Vec<u8>,
    line: &[u8],
) -> Result<bool, Fault> {
    match strip(line, b"\\file ") {
        Some(name) => {
            input.extend_from_slice(&named_file(rt, name)?.bytes)?;
            Ok(true)
        }
        None => Ok(push_said(input, line)?),
    }
}

/// The place behind a line of a case before its input: a device, a file, or what is asked.
fn place_after_head(
    rt: &(impl Files + AllocGlobal),
    mut case: Case,
    line: &[u8],
) -> Result<Option<Place>, Fault> {
    if let Some(name) = strip(line, b"like ") {
        case.like = Some(named_file(rt, name)?);
        return Ok(Some(Place::Head(case)));
    }
    if let Some(source) = device_of(line, b"source ") {
        case.source = source;
        return Ok(Some(Place::Head(case)));
    }
    if let Some(sink) = device_of(line, b"sink ") {
        case.sink = sink;
        return Ok(Some(Place::Head(case)));
    }
    match ask_of(rt.alloc(), line)? {
        Some(ask) => {
            case.ask = ask;
            Ok(Some(Place::Input(case)))
        }
        None => Ok(None),
    }
}

/// The device of a line: its name, the most bytes of a call, the call that fails, and where there are more the last of them.
fn device_of(line: &[u8], name: &[u8]) -> Option<Device> {
    let (piece, fails, last) = match three_fields(line, name) {
        Some(fields) => fields,
        None => {
            let (piece, fails) = two_fields(line, name)?;
            (piece, fails, fails)
        }
    };
    let piece = u32::try_from(read_number(piece)?).ok()?;
    let fails = read_number(fails)?;
    let last = read_number(last)?;
    if piece == 0 {
        return None;
    }
    Some(Device { piece, fails, last })
}

/// What a line asks.
fn ask_of(alloc: Global, line: &[u8]) -> Result<Option<Ask>, AllocError> {
    if is_text(line, b"script") {
        return Ok(Some(Ask::Script));
    }
    if is_text(line, b"trace") {
        return Ok(Some(Ask::Trace));
    }
    if is_text(line, b"words") {
        return Ok(Some(Ask::Words(Vec::new(alloc))));
    }
    match strip(line, b"words ") {
        Some(fields) => Ok(words_of(alloc, fields)?.map(Ask::Words)),
        None => Ok(None),
    }
}

/// The words of fields that single spaces part. `None` where one is no text.
fn words_of(alloc: Global, fields: &[u8]) -> Result<Option<Vec<String>>, AllocError> {
    let mut words = Vec::new(alloc);
    for field in fields.split(|byte| *byte == b' ') {
        match str::from_utf8(field) {
            Ok(word) => words.push(String::from_str(alloc, word)?)?,
            Err(_) => return Ok(None),
        }
    }
    Ok(Some(words))
}
