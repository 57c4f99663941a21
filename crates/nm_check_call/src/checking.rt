//! A journal is read, and what is found of it is written.

ghost use Rattle.std.specs.Prelude.{◌≡◌, IfOk};
ghost use Rattle.nm_answer.specs.Answer.{SomeTextCause};
ghost use Rattle.nm_check_call.specs.Checking.{IsCheckCall, IsJudging, verdict_text};

use nm_answer::status::{status_of_read, status_of_text};
use nm_answer::{Status, write_text};
use nm_io::{Sink, Source, read_all};
use nm_journal::Verdict;
use nm_journal::check::check;
use nm_run_facts::the_facts_hold_of_each_journal;
use nm_text::push_number;
use std::alloc::{AllocError, Global};

/// The command `check`: it reads a journal and writes `yes` where it holds, else `no` and the number of the first line that is wrong. Where the
/// script part of the journal is no script the status is Script, with its first fault.
pub fn check_call<S: Source, K: Sink>(alloc: Global, source: &mut S, sink: &mut K) -> Status
    ensures { IsCheckCall (record { left = S.left; faults = S.faults; gives = S.read_gives })
        (record { held = K.held; faults = K.faults; takes = K.write_takes })
        source.old source.new sink.old sink.new result }
{
    the_facts_hold_of_each_journal();
    match judged(alloc, source) {
        Ok(verdict) => verdict_call(alloc, verdict, sink),
        Err(status) => status,
    }
}

/// What is found of the journal that the source gives, read to its end, or the status of a source that gives none.
fn judged<S: Source>(alloc: Global, source: &mut S) -> Result<Verdict, Status>
    ensures { IsJudging (record { left = S.left; faults = S.faults; gives = S.read_gives })
        source.old source.new result }
{
    let bytes = match read_all(alloc, source) {
        Ok(bytes) => bytes,
        Err(refusal) => return Err(status_of_read(refusal)),
    };
    match check(alloc, &bytes) {
        Ok(verdict) => Ok(verdict),
        Err(refusal) => Err(status_of_text(refusal)),
    }
}

/// Writes what is found of a journal.
fn verdict_call<K: Sink>(alloc: Global, verdict: Verdict, sink: &mut K) -> Status
    ensures { SomeTextCause (record { held = K.held; faults = K.faults; takes = K.write_takes })
        sink.old sink.new (λ text. text ≡ verdict_text verdict) result }
{
    match text_of(alloc, verdict) {
        Ok(text) => write_text(sink, &text),
        Err(AllocError) => Status::Memory,
    }
}

/// The line of a verdict.
fn text_of(alloc: Global, verdict: Verdict) -> Result<Vec<u8>, AllocError>
    ensures { IfOk result (λ text. text.items ≡ verdict_text verdict) }
{
    let mut text = Vec::new(alloc);
    match verdict {
        Verdict::Yes => text.extend_from_slice(b"yes")?,
        Verdict::No(line) => {
            text.extend_from_slice(b"no ")?;
            push_number(&mut text, line.into())?;
        }
    }
    text.push(b'\n')?;
    Ok(text)
}
