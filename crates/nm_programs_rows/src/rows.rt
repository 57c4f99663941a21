//! Whole reports of scripts, worked out by hand.

ghost use Rattle.std.specs.Prelude.{◌≡◌};
ghost use Rattle.nm_schedule_rows.specs.Listed.{IsSmall};

use crate::resumed::Resumed;
use nm_action::{Action, Turn};
use nm_actor::Actor;
use nm_base::Geometry;
use nm_migrator::MigratorActor;
use nm_play::Silent;
use nm_programs::run_programs;
use nm_report::{Report, print};
use nm_schedule_rows::listed::Listed;
use nm_script::parse;
use std::alloc::Global;
use std::process::Abort;
use std::test::Fail;

/// An actor of this number that reads the acknowledgement of the one processor, and ends. Condition: the machine has one
/// virtual page and one processor.
fn waiting<'a>(g: &'a Geometry, number: u32) -> Listed<'a>
    requires { IsSmall g.now }
    ensures geometry { result.geometry.now ≡ g.now }
    ensures number { result.number ≡ number }
    ensures new { ⟦<Listed<'a> as Actor>⟧.is_new result }
{
    Listed {
        geometry: g,
        number,
        turns: &[Turn::Do(Action::SeeAck { cpu: 0 })],
        given: 0,
        last: None,
    }
}

/// The report of a script with one processor and one virtual page.
fn reported(rt: &impl Abort, alloc: Global, text: &[u8]) -> Result<Vec<u8>, Fail> {
    assert!(rt; text.len() < 1000000);
    let script = parse(alloc, text)?;
    let g = &script.geometry;
    assert!(rt; g.cpus == 1);
    assert!(rt; g.vpages.len() == 1);
    let migrator = waiting(g, 1);
    let reclaimer = waiting(g, 2);
    let run = run_programs(alloc, &script, migrator, reclaimer, Silent)?;
    let report = Report {
        script: &script,
        results: &run.results,
        end: &run.end,
        tally: run.tally,
    };
    Ok(print(alloc, &report)?)
}

/// The same, with the migrator itself, which is resumed after its End, and after the second one again.
fn resumed(rt: &impl Abort, alloc: Global, text: &[u8]) -> Result<Vec<u8>, Fail> {
    assert!(rt; text.len() < 1000000);
    let script = parse(alloc, text)?;
    let g = &script.geometry;
    assert!(rt; g.cpus == 1);
    assert!(rt; g.vpages.len() == 1);
    let migrator = Resumed {
        migrator: MigratorActor::new(alloc, g, script.retry)?,
        left: 2,
    };
    let reclaimer = waiting(g, 2);
    let run = run_programs(alloc, &script, migrator, reclaimer, Silent)?;
    let report = Report {
        script: &script,
        results: &run.results,
        end: &run.end,
        tally: run.tally,
    };
    Ok(print(alloc, &report)?)
}

/// The lines of a report after those of the processor.
const REST: &[u8] = b"tier 0 free 3 mapped 1 shadow 0 held 0 of 4
tier 1 free 8 mapped 0 shadow 0 held 0 of 8
page 0 frame 0
faults demand 1 alias 0 hint 0 shadow 0
marks set 0 spilled 0 cold 0 committed 0 moved 0 noframe 0 gone 0 worn 0
moves aborted 0 remapped 0 copied 0 words 0
work flushes 0 reclaimed 0
settled yes
";

/// Runs a script with this program, and compares the report.
fn reports(rt: &impl Abort, alloc: Global, program: &[u8], made: &[u8]) -> Result<(), Fail> {
    let mut text = Vec::new(alloc);
    text.extend_from_slice(
        b"nomad 1\npage 4\ntiers 4 8\ncpus 1\nserial turns 1000\nmap 0 0 rw\ncpu 0\n",
    )?;
    text.extend_from_slice(program)?;
    let mut report = Vec::new(alloc);
    report.extend_from_slice(b"cpu 0\n")?;
    report.extend_from_slice(made)?;
    report.extend_from_slice(REST)?;
    let found = reported(rt, alloc, &text)?;
    assert!(rt; found == report);
    let again = resumed(rt, alloc, &text)?;
    assert!(rt; again == report);
    Ok(())
}

#[test]
fn a_load_gives_0_at_first(rt: HostRuntime) -> Result<(), Fail> {
    reports(&rt, rt.alloc(), b"load 0.0\n", b"load 0.0 0\n")
}

#[test]
fn the_last_word_of_a_page_holds_the_greatest_number(rt: HostRuntime) -> Result<(), Fail> {
    reports(
        &rt,
        rt.alloc(),
        b"store 0.3 42\nload 0.3\nstore 0.3 18446744073709551615\nload 0.3\n",
        b"store 0.3 42\nload 0.3 42\nstore 0.3 18446744073709551615\nload 0.3 18446744073709551615\n",
    )
}

#[test]
fn adds_wrap_at_the_end_of_a_word(rt: HostRuntime) -> Result<(), Fail> {
    reports(
        &rt,
        rt.alloc(),
        b"add 0.0 5\nadd 0.0 18446744073709551615\nload 0.0\n",
        b"add 0.0 5 gave 0\nadd 0.0 18446744073709551615 gave 5\nload 0.0 4\n",
    )
}
