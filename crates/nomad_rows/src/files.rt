//! Files that lie beside the rows.

use crate::faults::Fault;
use nm_io::{StdSource, read_all};
use std::fs;
use std::rt::Files;

/// A file, with its bytes.
#[derive(Drop)]
pub struct NamedFile {
    /// What it is called.
    pub name: Vec<u8>,
    /// What stands in it.
    pub bytes: Vec<u8>,
}

/// The file of this name, in the folder where the program runs.
pub fn named_file(rt: &(impl Files + AllocGlobal), name: &[u8]) -> Result<NamedFile, Fault> {
    let Ok(path) = str::from_utf8(name) else {
        return Err(Fault::File);
    };
    let Ok(file) = fs::open(rt, path) else {
        return Err(Fault::File);
    };
    Ok(NamedFile {
        name: Vec::from_slice(rt.alloc(), name)?,
        bytes: read_all(rt.alloc(), &mut StdSource::new(file))?,
    })
}
