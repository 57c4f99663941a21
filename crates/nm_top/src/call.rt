//! The calls of the program, over a source and a sink.

ghost use Rattle.std.specs.Prelude.{◌≡◌, ◌≢◌, ◌↔◌, ◌⊎◌, IsTrue};
ghost use Rattle.nm_command.specs.declared.form.Form.{Form};
ghost use Rattle.nm_command.specs.declared.form.Form.TheVariants as forms;
ghost use Rattle.nm_command.specs.Words.{IsFormOf, IsForm, IsInRange};
ghost use Rattle.nm_answer.specs.Answer.{IsWanting};
ghost use Rattle.nm_top.specs.Answer.{IsUnserved, IsPlainForm, IsProgramForm};

use crate::drill::drill_call;
use crate::generated::gen_call;
use crate::importing::import_call;
use crate::journal::journal_call;
use crate::lab::lab_call;
use crate::run::run_call;
use crate::sim::sim_call;
use nm_answer::Status;
use nm_check_call::check_call;
use nm_command::{Form, form_of};
use nm_io::{Gate, Sink, Source};
use std::alloc::{AllocError, Global};
use std::sync::Wait;
use std::thread::Threads;

/// The call that the program makes: what it answers to the words behind its name.
///
/// Where `sim` or `run` is Done its bytes tell of a run of the script that was read, and where `drill` is, of the generated one: the
/// accesses, each processor's own once and in order, are one legal history of a flat memory; each transaction commits exactly where
/// no dirty walk lay between clearing and unmapping, else the old mapping returns; each shadow equals its master at every step;
/// and the roles of frames that are printed sum to the tiers (`HoldsOfEvents`). Of `run` that is so for every fall of the threads' steps:
/// the own list of each actor is what its thread did.
///
/// `run` may wait, as threads do; every other list of words is answered in the end.
pub fn nomad_main<T: Threads + Wait + Sync, G: Gate, S: Source, K: Sink>(
    rt: &T,
    alloc: Global,
    words: &[String],
    gate: &G,
    source: &mut S,
    sink: &mut K,
) -> Status
    // Words of no form.
    ensures usage { (IsForm words.now → ⊥) → IsUnserved source.old source.new sink.old sink.new result }

    // Words of a form.
    ensures called { (form : Form) → IsFormOf form words.now → IsProgramForm (record { left = S.left; faults = S.faults; gives = S.read_gives })
        (record { held = K.held; faults = K.faults; takes = K.write_takes })
        form source.old source.new sink.old sink.new result }

    // Where it is not known whether the words have a form, memory is wanting.
    ensures known { result ≢ Status.Memory → IsForm words.now ⊎ (IsForm words.now → ⊥) }
    ensures wanting { result ≡ Status.Memory
        → IsWanting (record { left = S.left; faults = S.faults; gives = S.read_gives })
        source.old source.new sink.old sink.new }
{
    match form_of(alloc, words) {
        Ok(Some(form)) => program_form(rt, alloc, form, gate, source, sink),
        Ok(None) => Status::Usage,
        Err(AllocError) => Status::Memory,
    }
}

/// The commands that need no threads. `sim` reads a script from the source, runs it and writes the report of the run to the sink;
/// `gen N SIZE` reads nothing and writes the script of the number N, with SIZE lines of programs, and `drill N SIZE` the summary
/// of the run of that script. `import F S` reads a trace from the source and writes the text of its script, with tiers of F and
/// S frames. `journal` reads a script as `sim` does and writes the journal of its run, and `check` reads a journal and writes whether it
/// holds. `lab WORD ..` reads a script, runs it once with each of the retries that its words say, and writes what the runs cost.
/// To `run` the answer is Usage.
///
/// The order of the answers is: Usage, or Memory where there is none to read the words; then reading, with ReadFault,
/// Script with TooLong, and Memory as they come; then Script or Trace with the first fault; then Memory; and
/// WriteFault last. Nothing is written before the whole text stands.
pub fn plain_call<S: Source, K: Sink>(
    alloc: Global,
    words: &[String],
    source: &mut S,
    sink: &mut K,
) -> Status
    // Words of no form.
    ensures usage { (IsForm words.now → ⊥) → IsUnserved source.old source.new sink.old sink.new result }

    // Words of a form.
    ensures called { (form : Form) → IsFormOf form words.now → IsPlainForm (record { left = S.left; faults = S.faults; gives = S.read_gives })
        (record { held = K.held; faults = K.faults; takes = K.write_takes })
        form source.old source.new sink.old sink.new result }

    // Where it is not known whether the words have a form, memory is wanting.
    ensures known { result ≢ Status.Memory → IsForm words.now ⊎ (IsForm words.now → ⊥) }
    ensures wanting { result ≡ Status.Memory
        → IsWanting (record { left = S.left; faults = S.faults; gives = S.read_gives })
        source.old source.new sink.old sink.new }
{
    match form_of(alloc, words) {
        Ok(Some(form)) => plain_form(alloc, form, source, sink),
        Ok(None) => Status::Usage,
        Err(AllocError) => Status::Memory,
    }
}

/// Whether the words ask for threads.
fn is_run(form: &Form) -> bool
    ensures { IsTrue result ↔ (form.now ≡ forms.Run) }
{
    matches!(form, Form::Run)
}

/// What the program answers to words of a form.
fn program_form<T: Threads + Wait + Sync, G: Gate, S: Source, K: Sink>(
    rt: &T,
    alloc: Global,
    form: Form,
    gate: &G,
    source: &mut S,
    sink: &mut K,
) -> Status
    requires { IsInRange form }
    ensures { IsProgramForm (record { left = S.left; faults = S.faults; gives = S.read_gives })
        (record { held = K.held; faults = K.faults; takes = K.write_takes })
        form source.old source.new sink.old sink.new result }
{
    if is_run(&form) {
        run_call(rt, alloc, gate, source, sink)
    } else {
        plain_form(alloc, form, source, sink)
    }
}

/// What is answered to words of a form without threads.
fn plain_form<S: Source, K: Sink>(alloc: Global, form: Form, source: &mut S, sink: &mut K) -> Status
    requires { IsInRange form }
    ensures { IsPlainForm (record { left = S.left; faults = S.faults; gives = S.read_gives })
        (record { held = K.held; faults = K.faults; takes = K.write_takes })
        form source.old source.new sink.old sink.new result }
{
    match form {
        Form::Sim => sim_call(alloc, source, sink),
        Form::Gen { number, size } => gen_call(alloc, number, size, sink),
        Form::Drill { number, size } => drill_call(alloc, number, size, sink),
        Form::Import { fast, slow } => import_call(alloc, fast, slow, source, sink),
        Form::Check => check_call(alloc, source, sink),
        Form::Journal => journal_call(alloc, source, sink),
        Form::Lab { retries } => lab_call(alloc, &retries.items, source, sink),
        Form::Run => Status::Usage,
    }
}
