//! How a call of the program ended.

ghost use Rattle.std.specs.Prelude.{◌≡◌, Some};
ghost use Rattle.std.specs.Process.{exit_status};
ghost use Rattle.nm_answer.specs.Status.{exit_number, fault_name, trace_fault_name, status_line, status_of_read, status_of_text, status_of_trace};

use nm_io::ReadRefusal;
use nm_script::{ScriptFault, ScriptRefusal};
use nm_trace::{TraceFault, TraceRefusal};
use std::fmt;
use std::process::{ExitCode, Termination};

/// How a call ended.
#[derive(Clone, Copy, Debug, PartialEq, Eq)]
pub enum Status {
    /// The source was read to its end, and the whole output was written.
    Done,
    /// The words are none of the forms. Nothing was read or written.
    Usage,
    /// The bytes that were read have this first fault. Nothing was written.
    Script {
        /// The fault. `TooLong` where more than 16,777,216 bytes were taken.
        fault: ScriptFault,
        /// The line where it is, from 1, or 0 where it is `TooLong`.
        line: u32,
    },
    /// A read failed. Nothing was written.
    ReadFault,
    /// A write failed. The sink holds a part of the output, not all of it, behind what it held.
    WriteFault,
    /// There is no memory. Nothing was written.
    Memory,
    /// The bytes that `import` read have this first fault as a trace. Nothing was written.
    Trace {
        /// The fault.
        fault: TraceFault,
        /// The number of the record where it is, the header being record 1; 0 where the script is too long.
        row: u32,
    },
}

impl Status {
    /// The number with which the program ends: 0, or 2 to 7.
    pub fn number(&self) -> u8
        ensures { result ≡ exit_number self.now }
    {
        match self {
            Status::Done => 0,
            Status::Usage => 2,
            Status::Script { .. } => 3,
            Status::ReadFault => 4,
            Status::WriteFault => 5,
            Status::Memory => 6,
            Status::Trace { .. } => 7,
        }
    }
}

/// The line that the program writes to standard error, without its newline; nothing for `Done`.
impl fmt::Display for Status {
    ghost output = { λ status. Some (status_line status) };

    fn fmt<W: fmt::Write>(&self, f: &mut fmt::Formatter<W>) -> fmt::Result {
        match self {
            Status::Done => Ok(()),
            Status::Usage => write!(f, "nomad: usage"),
            Status::Script { fault, line } => {
                let name = name_of(*fault);
                write!(f, "nomad: line {line}: {name}")
            }
            Status::ReadFault => write!(f, "nomad: read fault"),
            Status::WriteFault => write!(f, "nomad: write fault"),
            Status::Memory => write!(f, "nomad: memory"),
            Status::Trace { fault, row } => {
                let name = name_of_trace_fault(*fault);
                write!(f, "nomad: trace row {row}: {name}")
            }
        }
    }
}

/// A program whose `main` gives a status writes its line to standard error, none for `Done`, and ends with its number.
impl Termination for Status {
    fn report<R: Eprint>(self, rt: &R) -> ExitCode
        ensures { exit_status result ≡ exit_number self }
    {
        if self != Status::Done {
            // The number tells the status too, so nothing is lost where standard error takes no line.
            let _ = eprintln!(rt; "{self}");
        }
        ExitCode::from(self.number())
    }
}

/// The name of a fault.
fn name_of(fault: ScriptFault) -> &'static str
    ensures { result.now ≡ fault_name fault }
{
    match fault {
        ScriptFault::TooLong => "TooLong",
        ScriptFault::Empty => "Empty",
        ScriptFault::BadHeader => "BadHeader",
        ScriptFault::BadLine => "BadLine",
        ScriptFault::BadNumber => "BadNumber",
        ScriptFault::OutOfRange => "OutOfRange",
        ScriptFault::DuplicateMap => "DuplicateMap",
        ScriptFault::Unmapped => "Unmapped",
        ScriptFault::ReadOnly => "ReadOnly",
        ScriptFault::MissingLine => "MissingLine",
        ScriptFault::TooManyPages => "TooManyPages",
        ScriptFault::TooManyTiers => "TooManyTiers",
        ScriptFault::TooFewTiers => "TooFewTiers",
    }
}

/// The name of a trace's fault.
fn name_of_trace_fault(fault: TraceFault) -> &'static str
    ensures { result.now ≡ trace_fault_name fault }
{
    match fault {
        TraceFault::BadHeader => "BadHeader",
        TraceFault::BadRecord => "BadRecord",
        TraceFault::BadNumber => "BadNumber",
        TraceFault::OutOfRange => "OutOfRange",
        TraceFault::TooManyPages => "TooManyPages",
        TraceFault::Empty => "Empty",
        TraceFault::ScriptTooLong => "ScriptTooLong",
    }
}

/// The status of a source that was not read to its end.
pub fn status_of_read(refusal: ReadRefusal) -> Status
    ensures { result ≡ status_of_read refusal }
{
    match refusal {
        ReadRefusal::ReadFault => Status::ReadFault,
        ReadRefusal::TooLong => Status::Script {
            fault: ScriptFault::TooLong,
            line: 0,
        },
        ReadRefusal::Memory => Status::Memory,
    }
}

/// The status of a text that was refused.
pub fn status_of_text(refusal: ScriptRefusal) -> Status
    ensures { result ≡ status_of_text refusal }
{
    match refusal {
        ScriptRefusal::At { fault, line } => Status::Script { fault, line },
        ScriptRefusal::Memory => Status::Memory,
    }
}

/// The status of a trace that was refused.
pub fn status_of_trace(refusal: TraceRefusal) -> Status
    ensures { result ≡ status_of_trace refusal }
{
    match refusal {
        TraceRefusal::At { fault, row } => Status::Trace { fault, row },
        TraceRefusal::Memory => Status::Memory,
    }
}
