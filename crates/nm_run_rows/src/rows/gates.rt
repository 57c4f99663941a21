//! Runs through gates that hold steps: two processors are inside their steps at once, and what loads give follows the order in
//! which steps are let through.

use crate::driver::{NONE, SETTLED, after, run};
use nm_io::Gate;
use nm_top::Status;
use std::alloc::{AllocError, Global};
use std::hint::spin_loop;
use std::sync::atomic::Ordering::SeqCst;
use std::sync::atomic::{AtomicBool, AtomicU64};
use std::test::Fail;

/// How often a gate looks before it gives up.
const LOOKS: u32 = 50_000_000;

/// How many steps the chosen processor makes before another actor makes its first.
const AHEAD: u64 = 100;

const AWAITS: &[u8] =
    b"nomad 1\npage 4\ntiers 4 9\ncpus 2\nserial turns 10000\nmap 0 0 rw\nmap 1 1 rw
cpu 0\nstore 0.0 1\nawait 1.0 1 50000000\ncpu 1\nstore 1.0 1\nawait 0.0 1 50000000\n";

const HEAD: &[u8] = b"nomad 1\npage 4\ntiers 4 8\ncpus 2\nserial turns 10000\nmap 0 0 rw\n";

/// A gate at which processors 0 and 1, each at its first step, wait for one another.
#[derive(Drop)]
struct Meeting {
    came: [AtomicBool; 2],
    saw: [AtomicBool; 2],
}

impl Gate for Meeting {
    fn pass(&self, actor: u32) {
        let (own, other) = match actor {
            0 => (0, 1),
            1 => (1, 0),
            _ => return,
        };
        if self.came[own].swap(true, SeqCst) {
            return;
        }
        for _ in 0..LOOKS {
            if self.came[other].load(SeqCst) {
                self.saw[own].store(true, SeqCst);
                return;
            }
            spin_loop();
        }
    }
}

#[test]
fn two_processors_meet_in_a_step(rt: HostRuntime) -> Result<(), Fail> {
    let gate = Meeting {
        came: [AtomicBool::new(false), AtomicBool::new(false)],
        saw: [AtomicBool::new(false), AtomicBool::new(false)],
    };
    let ran = run(&rt, rt.alloc(), &gate, AWAITS, NONE)?;
    assert!(rt; ran.status == Status::Done && ran.bytes.ends_with(SETTLED));
    assert!(rt; gate.saw[0].load(SeqCst) && gate.saw[1].load(SeqCst));
    Ok(())
}

/// A gate that holds all other actors until the chosen one was let through often enough.
#[derive(Drop)]
struct First {
    chosen: u32,
    passed: AtomicU64,
    is_missed: AtomicBool,
}

impl Gate for First {
    fn pass(&self, actor: u32) {
        if actor == self.chosen {
            self.passed.fetch_add(1, SeqCst);
            return;
        }
        for _ in 0..LOOKS {
            if self.passed.load(SeqCst) >= AHEAD || self.is_missed.load(SeqCst) {
                return;
            }
            spin_loop();
        }
        self.is_missed.store(true, SeqCst);
    }
}

/// Appends a line so many times.
fn push_lines(text: &mut Vec<u8>, line: &[u8], times: u32) -> Result<(), AllocError> {
    for _ in 0..times {
        text.extend_from_slice(line)?;
    }
    Ok(())
}

/// A script, or the accesses of its report: processor 0 loads a word a hundred times, and processor 1 stores 1 there and then loads it.
fn loads(alloc: Global, head: &[u8], load: &[u8]) -> Result<Vec<u8>, AllocError> {
    let mut text = Vec::from_slice(alloc, head)?;
    text.extend_from_slice(b"cpu 0\n")?;
    push_lines(&mut text, load, 100)?;
    text.extend_from_slice(b"cpu 1\nstore 0.0 1\n")?;
    push_lines(&mut text, load, 99)?;
    Ok(text)
}

#[test]
fn loads_follow_the_gate(rt: HostRuntime) -> Result<(), Fail> {
    let script = loads(rt.alloc(), HEAD, b"load 0.0\n")?;
    let ones = loads(rt.alloc(), b"", b"load 0.0 1\n")?;
    let zero_first: &[u8] = b"cpu 0\nload 0.0 0\n";
    for (chosen, begins) in [(0, zero_first), (1, ones.as_slice())] {
        let gate = First {
            chosen,
            passed: AtomicU64::new(0),
            is_missed: AtomicBool::new(false),
        };
        let ran = run(&rt, rt.alloc(), &gate, &script, NONE)?;
        assert!(rt; !gate.is_missed.load(SeqCst), "processor {chosen}");
        assert!(rt; ran.status == Status::Done && ran.bytes.ends_with(SETTLED));
        assert!(rt; after(&ran.bytes, begins).is_some(), "processor {chosen}");
    }
    Ok(())
}
