//! Texts that are no script, and sources and sinks that fail.

use crate::driver::{Fails, NONE, run};
use nm_io::Open;
use nm_script::ScriptFault;
use nm_top::Status;
use std::test::Fail;

const SMALLEST: &[u8] =
    b"nomad 1\npage 4\ntiers 4 8\ncpus 1\nserial turns 1000\nmap 0 0 rw\ncpu 0\nload 0.0\n";

/// A text, the calls that fail, how the run ends, and what it writes.
struct Case {
    name: &'static str,
    text: &'static [u8],
    fails: Fails,
    status: Status,
    written: &'static [u8],
}

const CASES: [Case; 8] = [
    Case {
        name: "no bytes",
        text: b"",
        fails: NONE,
        status: Status::Script {
            fault: ScriptFault::Empty,
            line: 1,
        },
        written: b"",
    },
    Case {
        name: "another version",
        text: b"nomad 3\npage 4\n",
        fails: NONE,
        status: Status::Script {
            fault: ScriptFault::BadHeader,
            line: 1,
        },
        written: b"",
    },
    Case {
        name: "a page of three words",
        text: b"nomad 1\npage 3\ntiers 4 8\ncpus 1\nserial turns 1000\nmap 0 0 rw\ncpu 0\n",
        fails: NONE,
        status: Status::Script {
            fault: ScriptFault::OutOfRange,
            line: 2,
        },
        written: b"",
    },
    Case {
        name: "an access that is none",
        text: b"nomad 1\npage 4\ntiers 4 8\ncpus 1\nserial turns 1000\nmap 0 0 rw\ncpu 0\njump 0.0\n",
        fails: NONE,
        status: Status::Script {
            fault: ScriptFault::BadLine,
            line: 8,
        },
        written: b"",
    },
    Case {
        name: "the second read fails",
        text: SMALLEST,
        fails: Fails { read: 2, write: 0 },
        status: Status::ReadFault,
        written: b"",
    },
    Case {
        name: "the read that finds the end fails",
        text: SMALLEST,
        fails: Fails { read: 6, write: 0 },
        status: Status::ReadFault,
        written: b"",
    },
    Case {
        name: "the first write fails",
        text: SMALLEST,
        fails: Fails { read: 0, write: 1 },
        status: Status::WriteFault,
        written: b"",
    },
    Case {
        name: "the third write fails",
        text: SMALLEST,
        fails: Fails { read: 0, write: 3 },
        status: Status::WriteFault,
        written: b"cpu 0\nload 0.0 0\ntier 0 free 3 m",
    },
];

#[test]
fn refuses(rt: HostRuntime) -> Result<(), Fail> {
    for case in &CASES {
        let ran = run(&rt, rt.alloc(), &Open, case.text, case.fails)?;
        assert!(rt; ran.status == case.status, "{}", case.name);
        assert!(rt; ran.bytes.as_slice() == case.written, "{}", case.name);
    }
    Ok(())
}
