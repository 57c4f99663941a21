//! Rows of whole calls of the program as data: it reads cases from standard input, makes the call of each, and writes to
//! standard output what each gave. The README has the form of a case and of what is written.
#![tactic(auto)]

mod answers;
mod calls;
mod cases;
mod faults;
mod files;
mod lines;

use answers::push_answer;
use cases::CaseReader;
use faults::Fault;
use nm_io::{StdSink, StdSource, read_all, write_all};

fn main(rt: HostRuntime) -> Result<(), Fault> {
    let alloc = rt.alloc();
    let text = read_all(alloc, &mut StdSource::new(rt.stdin()))?;
    let mut reader = CaseReader::new();
    let mut out = Vec::new(alloc);
    for line in text.split(|byte| *byte == b'\n') {
        if let Some(case) = reader.read_line(&rt, line)? {
            push_answer(alloc, &case, &mut out)?;
        }
    }
    reader.end()?;
    Ok(write_all(&mut StdSink::new(rt.stdout()), &out)?)
}
