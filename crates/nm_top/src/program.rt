//! The program as a whole: its words, its input and its output.

use crate::call::nomad_main;
use nm_answer::Status;
use nm_io::{Open, StdSink, StdSource};
use std::env;
use std::io::{self, Read, Write};
use std::rt::Env;
use std::sync::Wait;
use std::thread::Threads;

/// What `main` of each program of the repository does: it reads the words behind the program's name, and makes the call
/// `nomad_main` over a reader and a writer. The status that it gives ends the program, by its line and its number.
pub fn nomad_program<T: Env + Threads + Wait + Sync + AllocGlobal, R: Read + Drop, W: Write + Drop>(
    rt: &T,
    input: R,
    output: W,
) -> Status {
    match words(rt) {
        Ok(words) => {
            let mut source = StdSource::new(input);
            let mut sink = StdSink::new(output);
            nomad_main(rt, rt.alloc(), &words, &Open, &mut source, &mut sink)
        }
        Err(status) => status,
    }
}

/// The words behind the program's name. One that is no text is no word of the program.
fn words(rt: &(impl Env + AllocGlobal)) -> Result<Vec<String>, Status> {
    match env::args(rt) {
        Ok(args) => args.skip(1).collect(rt.alloc()).map_err(|_| Status::Memory),
        Err(error) if error.kind() == io::ErrorKind::OutOfMemory => Err(Status::Memory),
        Err(_) => Err(Status::Usage),
    }
}
