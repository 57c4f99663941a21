//! Reports of runs: whole ones where threads can't change a count, and else what each access gave.

use crate::driver::{NONE, SETTLED, after, run};
use nm_io::Open;
use nm_top::Status;
use std::test::Fail;

/// A script, and what its accesses gave, in one way or another. A `#` stands for a number.
struct Case {
    name: &'static str,
    script: &'static [u8],
    accesses: &'static [u8],
    otherwise: Option<&'static [u8]>,
}

/// What stands behind the accesses where page 0 alone was used and stays in the first of four fast frames.
const FAST: &[u8] = b"tier 0 free 3 mapped 1 shadow 0 held 0 of 4
tier 1 free 8 mapped 0 shadow 0 held 0 of 8
page 0 frame 0
faults demand 1 alias 0 hint 0 shadow 0
marks set 0 spilled 0 cold 0 committed 0 moved 0 noframe 0 gone 0 worn 0
moves aborted 0 remapped 0 copied 0 words 0
work flushes 0 reclaimed 0
settled yes
";

/// Scripts of one processor whose page is fast from the beginning.
const WHOLE: [Case; 4] = [
    Case {
        name: "smallest",
        script: b"nomad 1\npage 4\ntiers 4 8\ncpus 1\nserial turns 1000\nmap 0 0 rw\ncpu 0\nload 0.0\n",
        accesses: b"cpu 0\nload 0.0 0\n",
        otherwise: None,
    },
    Case {
        name: "no turns of a schedule, and no end of the last line",
        script: b"nomad 1\npage 4\ntiers 4 8\ncpus 1\nserial turns 0\nmap 0 0 rw\ncpu 0\nload 0.0",
        accesses: b"cpu 0\nload 0.0 0\n",
        otherwise: None,
    },
    Case {
        name: "last word",
        script: b"nomad 1\npage 4\ntiers 4 8\ncpus 1\nserial turns 1000\nmap 0 0 rw\ncpu 0
store 0.3 42\nload 0.3\nstore 0.3 18446744073709551615\nload 0.3\nload 0.0\n",
        accesses: b"cpu 0\nstore 0.3 42\nload 0.3 42\nstore 0.3 18446744073709551615
load 0.3 18446744073709551615\nload 0.0 0\n",
        otherwise: None,
    },
    Case {
        name: "a plan, and adds",
        script: b"nomad 1\npage 4\ntiers 4 8\ncpus 1\nplan turns 1\ngo r bump 9\ngo c0 ack 1\nmap 0 0 rw\ncpu 0
add 0.0 5\nadd 0.0 18446744073709551615\nload 0.0\n",
        accesses: b"cpu 0\nadd 0.0 5 gave 0\nadd 0.0 18446744073709551615 gave 5\nload 0.0 4\n",
        otherwise: None,
    },
];

/// Scripts whose pages move, or that have two processors: what became of a page, and how often, is left to the threads.
const OTHERS: [Case; 8] = [
    Case {
        name: "abort",
        script: b"nomad 1\npage 4\ntiers 2 10\ncpus 1\nplan turns 10000\ngo c0 load 1\ngo m cleardirty 1\ngo c0 store 1
map 0 0 rw\ncpu 0\nload 0.0\nstore 0.0 7\nload 0.0\n",
        accesses: b"cpu 0\nload 0.0 0\nstore 0.0 7\nload 0.0 7\n",
        otherwise: None,
    },
    Case {
        name: "batch",
        script: b"nomad 1\npage 4\ntiers 4 12\ncpus 1\nserial turns 10000\nmap 0 0 rw\nmap 1 1 rw\nmap 2 2 rw\nmap 3 3 rw
cpu 0\nload 0.0\nload 1.0\nload 2.0\nload 3.0\nstore 2.0 7\nload 2.0\nload 3.0\n",
        accesses: b"cpu 0\nload 0.0 0\nload 1.0 0\nload 2.0 0\nload 3.0 0\nstore 2.0 7\nload 2.0 7\nload 3.0 0\n",
        otherwise: None,
    },
    Case {
        name: "dirty cached store",
        script: b"nomad 1\npage 4\ntiers 2 10\ncpus 1\nserial turns 10000\nmap 0 0 rw\ncpu 0
store 0.0 3\nstore 0.0 4\nload 0.0\n",
        accesses: b"cpu 0\nstore 0.0 3\nstore 0.0 4\nload 0.0 4\n",
        otherwise: None,
    },
    Case {
        name: "mapped twice",
        script: b"nomad 1\npage 4\ntiers 2 10\ncpus 1\nserial turns 10000\nmap 0 0 rw\nmap 1 0 rw\ncpu 0
store 0.0 6\nload 1.0\n",
        accesses: b"cpu 0\nstore 0.0 6\nload 1.0 6\n",
        otherwise: None,
    },
    Case {
        name: "retry",
        script: b"nomad 2\npage 4\nnode 0 2\nnode 200 10\ncpus 1\nretry 1\nserial turns 10000\nmap 0 0 rw\ncpu 0
load 0.0\nstore 0.0 7\nload 0.0\n",
        accesses: b"cpu 0\nload 0.0 0\nstore 0.0 7\nload 0.0 7\n",
        otherwise: None,
    },
    Case {
        name: "three tiers",
        script: b"nomad 2\npage 4\nnode 0 2\nnode 128 2\nnode 256 10\ncpus 1\nserial turns 100000
map 0 0 rw\nmap 1 1 rw\nmap 2 2 rw\ncpu 0
store 0.0 10\nstore 1.0 11\nstore 2.0 12\nload 0.0\nload 1.0\nload 2.0\n",
        accesses: b"cpu 0\nstore 0.0 10\nstore 1.0 11\nstore 2.0 12\nload 0.0 10\nload 1.0 11\nload 2.0 12\n",
        otherwise: None,
    },
    Case {
        name: "two awaits",
        script: b"nomad 1\npage 4\ntiers 4 9\ncpus 2\nserial turns 10000\nmap 0 0 rw\nmap 1 1 rw
cpu 0\nstore 0.0 1\nawait 1.0 1 50000000\ncpu 1\nstore 1.0 1\nawait 0.0 1 50000000\n",
        accesses: b"cpu 0\nstore 0.0 1\nawait 1.0 1 met #\ncpu 1\nstore 1.0 1\nawait 0.0 1 met #\n",
        otherwise: None,
    },
    Case {
        name: "two adders",
        script: b"nomad 1\npage 4\ntiers 4 8\ncpus 2\nserial turns 1000\nmap 0 0 rw
cpu 0\nadd 0.0 1\nawait 0.0 2 50000000\ncpu 1\nadd 0.0 1\n",
        accesses: b"cpu 0\nadd 0.0 1 gave 0\nawait 0.0 2 met #\ncpu 1\nadd 0.0 1 gave 1\n",
        otherwise: Some(b"cpu 0\nadd 0.0 1 gave 1\nawait 0.0 2 met #\ncpu 1\nadd 0.0 1 gave 0\n"),
    },
];

/// What stands behind the accesses, if they gave what the case says.
fn after_accesses<'a>(bytes: &'a [u8], case: &Case) -> Option<&'a [u8]> {
    match (after(bytes, case.accesses), case.otherwise) {
        (None, Some(accesses)) => after(bytes, accesses),
        (rest, _) => rest,
    }
}

#[test]
fn prints_whole_reports(rt: HostRuntime) -> Result<(), Fail> {
    for case in &WHOLE {
        let ran = run(&rt, rt.alloc(), &Open, case.script, NONE)?;
        assert!(rt; ran.status == Status::Done, "{}", case.name);
        assert!(rt;
            after_accesses(&ran.bytes, case) == Some(FAST),
            "{}",
            case.name
        );
    }
    Ok(())
}

#[test]
fn prints_what_accesses_gave(rt: HostRuntime) -> Result<(), Fail> {
    for case in &OTHERS {
        let ran = run(&rt, rt.alloc(), &Open, case.script, NONE)?;
        assert!(rt; ran.status == Status::Done, "{}", case.name);
        let rest = after_accesses(&ran.bytes, case);
        assert!(rt;
            rest.is_some_and(|rest| rest.starts_with(b"tier 0 free ")),
            "{}",
            case.name
        );
        assert!(rt; ran.bytes.ends_with(SETTLED), "{}", case.name);
    }
    Ok(())
}
