//! Writing a report's text.

ghost use Rattle.std.specs.Prelude.{◌≡◌, ◌<◌, ◌++◌, map, length, slice_index_or, OnOk, IfOk, count_by, IfSome, codes, None};
ghost use Rattle.std.specs.Fmt.{decimal};
ghost use Rattle.nm_base.specs.Geometry.{frame_count, page_count};
ghost use Rattle.nm_script.specs.Items.{place_text};
ghost use Rattle.nm_core.specs.EndWords.{HasEndRoom};
ghost use Rattle.nm_report.specs.Ends.{NamesInRange, is_free_role, is_mapped_role, is_shadow_role, is_held_role, named_beside};
ghost use Rattle.nm_report.specs.Texts.{IsPrintable, AllFit, EachFits, report_text, told_text, asked_text, given_text, made_text, all_made_text, cpu_text, cpus_text, roles_text, tier_text, tiers_text, shadow_text, home_text, page_text, pages_text, tally_text, faults_text, marks_text, moves_text, work_text, settled_text, counts_text};

use crate::line_result::LineResult;
use crate::report::Report;
use nm_action::Tally;
use nm_base::Geometry;
use nm_core::{EndWords, Role};
use nm_script::Line;
use nm_text::push_field;
use std::alloc::{AllocError, Global};

/// The text of a report: the accesses of each processor with what they gave, the roles of each tier's frames, the
/// frame and the shadow of each page, the counts, and whether the end is settled. `AllocError` comes where there is no
/// memory for it.
pub fn print(alloc: Global, report: &Report<'_>) -> Result<Vec<u8>, AllocError>
    requires { IsPrintable report.now }
    ensures { IfOk result (λ text. text.items ≡ report_text report.now) }
{
    let mut out = Vec::new(alloc);
    push_cpus(&mut out, report)?;
    push_tiers(&mut out, report)?;
    push_pages(&mut out, report)?;
    push_counts(&mut out, report)?;
    Ok(out)
}

/// The lines of a report but for the four of its counts. `AllocError` comes where there is no memory for them.
pub fn print_told(alloc: Global, report: &Report<'_>) -> Result<Vec<u8>, AllocError>
    requires { IsPrintable report.now }
    ensures { IfOk result (λ text. text.items ≡ told_text report.now) }
{
    let mut out = Vec::new(alloc);
    push_cpus(&mut out, report)?;
    push_tiers(&mut out, report)?;
    push_pages(&mut out, report)?;
    let end = report.end;
    push_settled(&mut out, end.settled)?;
    Ok(out)
}

/// The lines of one processor: its number, and the accesses of its program that were made, with what they gave.
/// `AllocError` comes where there is no memory for them.
pub fn print_cpu(
    alloc: Global,
    cpu: u32,
    program: &[Line],
    results: &[LineResult],
) -> Result<Vec<u8>, AllocError>
    requires { AllFit program.now results.now }
    ensures { IfOk result (λ text. text.items ≡ cpu_text cpu program.now results.now) }
{
    let mut out = Vec::new(alloc);
    push_cpu(&mut out, cpu, program, results)?;
    Ok(out)
}

/// Writes the lines of the processors.
fn push_cpus(out: &mut Vec<u8>, report: &Report<'_>) -> Result<(), AllocError>
    requires { IsPrintable report.now }
    ensures { OnOk result (out.new.items ≡ out.old.items
        ++ cpus_text report.now.script.programs report.now.results report.now.script.geometry.cpus) }
{
    let script = report.script;
    push_each_cpu(out, script.geometry.cpus, &script.programs, report.results)
}

/// Writes the lines of the tiers.
pub(crate) fn push_tiers(out: &mut Vec<u8>, report: &Report<'_>) -> Result<(), AllocError>
    requires { IsPrintable report.now }
    ensures { OnOk result (out.new.items ≡ out.old.items ++ tiers_text report.now.script.geometry report.now.end.roles) }
{
    let script = report.script;
    let end = report.end;
    push_each_tier(out, &script.geometry, &end.roles)
}

/// Writes the lines of the pages.
fn push_pages(out: &mut Vec<u8>, report: &Report<'_>) -> Result<(), AllocError>
    requires { IsPrintable report.now }
    ensures { OnOk result (out.new.items ≡ out.old.items ++ pages_text report.now.script.geometry report.now.end) }
{
    let script = report.script;
    push_each_page(out, &script.geometry, report.end)
}

/// Writes the lines after those of the tiers and pages.
pub(crate) fn push_counts(out: &mut Vec<u8>, report: &Report<'_>) -> Result<(), AllocError>
    ensures { OnOk result (out.new.items ≡ out.old.items ++ counts_text report.now) }
{
    push_tally(out, &report.tally)?;
    let end = report.end;
    push_settled(out, end.settled)
}

/// Writes each processor and its accesses.
fn push_each_cpu(
    out: &mut Vec<u8>,
    cpus: u32,
    programs: &[Vec<Line>],
    results: &[Vec<LineResult>],
) -> Result<(), AllocError>
    requires programs { length programs.now ≡ cpus }
    requires results { length results.now ≡ cpus }
    requires fits { EachFits (map (λ p. p.items) programs.now) (map (λ r. r.items) results.now) }
    ensures { OnOk result (out.new.items ≡ out.old.items
        ++ cpus_text (map (λ p. p.items) programs.now) (map (λ r. r.items) results.now) cpus) }
{
    for p in 0..cpus {
        push_cpu(out, p, &programs[p as usize], &results[p as usize])?;
    }
    Ok(())
}

/// Writes a processor and its accesses.
fn push_cpu(
    out: &mut Vec<u8>,
    p: u32,
    program: &[Line],
    results: &[LineResult],
) -> Result<(), AllocError>
    requires { AllFit program.now results.now }
    ensures { OnOk result (out.new.items ≡ out.old.items ++ cpu_text p program.now results.now) }
{
    push_field(out, b"cpu ", u64::from(p))?;
    out.push(b'\n')?;
    push_all_made(out, program, results)
}

/// Writes the accesses of a processor.
fn push_all_made(
    out: &mut Vec<u8>,
    program: &[Line],
    results: &[LineResult],
) -> Result<(), AllocError>
    requires { AllFit program.now results.now }
    ensures { OnOk result (out.new.items ≡ out.old.items ++ all_made_text program.now results.now) }
{
    for i in 0..results.len() {
        push_made(out, program[i], results[i])?;
    }
    Ok(())
}

/// Writes the line of an access.
fn push_made(out: &mut Vec<u8>, line: Line, given: LineResult) -> Result<(), AllocError>
    ensures { OnOk result (out.new.items ≡ out.old.items ++ made_text line given) }
{
    push_asked(out, line)?;
    push_given(out, given)?;
    out.push(b'\n')?;
    Ok(())
}

/// Writes what a line asks for.
fn push_asked(out: &mut Vec<u8>, line: Line) -> Result<(), AllocError>
    ensures { OnOk result (out.new.items ≡ out.old.items ++ asked_text line) }
{
    match line {
        Line::Load { v, w } => push_place(out, b"load ", v, w),
        Line::Store { v, w, x } => {
            push_place(out, b"store ", v, w)?;
            push_field(out, b" ", x)
        }
        Line::Add { v, w, x } => {
            push_place(out, b"add ", v, w)?;
            push_field(out, b" ", x)
        }
        Line::Await { v, w, x, .. } => {
            push_place(out, b"await ", v, w)?;
            push_field(out, b" ", x)
        }
    }
}

/// Writes what a line gave.
fn push_given(out: &mut Vec<u8>, given: LineResult) -> Result<(), AllocError>
    ensures { OnOk result (out.new.items ≡ out.old.items ++ given_text given) }
{
    match given {
        LineResult::Loaded(x) => push_field(out, b" ", x),
        LineResult::Stored => Ok(()),
        LineResult::Added(y) => push_field(out, b" gave ", y),
        LineResult::Met(n) => push_field(out, b" met ", u64::from(n)),
        LineResult::Missed(n) => push_field(out, b" missed ", u64::from(n)),
    }
}

/// Writes a word, a virtual page and a word of it.
fn push_place(out: &mut Vec<u8>, word: &[u8], v: u32, w: u32) -> Result<(), AllocError>
    ensures { OnOk result (out.new.items ≡ out.old.items ++ word.now ++ place_text v w) }
{
    push_field(out, word, u64::from(v))?;
    push_field(out, b".", u64::from(w))
}

/// Writes a line for each tier.
fn push_each_tier(out: &mut Vec<u8>, g: &Geometry, roles: &[Role]) -> Result<(), AllocError>
    requires { length roles.now ≡ frame_count g.now }
    ensures { OnOk result (out.new.items ≡ out.old.items ++ tiers_text g.now roles.now) }
{
    for t in 0..g.tiers.len() {
        push_tier(out, g, roles, t as u32)?;
    }
    Ok(())
}

/// Writes the line of a tier.
fn push_tier(out: &mut Vec<u8>, g: &Geometry, roles: &[Role], t: u32) -> Result<(), AllocError>
    requires room { length roles.now ≡ frame_count g.now }
    requires exists { t < length g.now.tiers }
    ensures { OnOk result (out.new.items ≡ out.old.items ++ tier_text g.now roles.now t) }
{
    let first = g.first_frame(t) as usize;
    let frames = g.tiers[t as usize];
    push_roles(out, t, &roles[first..first + frames as usize], frames)
}

/// How many frames have each role.
#[derive(Clone, Copy)]
struct RoleCounts {
    free: usize,
    mapped: usize,
    shadow: usize,
    held: usize,
}

/// Writes the line of a tier with these roles and this many frames.
fn push_roles(out: &mut Vec<u8>, t: u32, roles: &[Role], frames: u32) -> Result<(), AllocError>
    ensures { OnOk result (out.new.items ≡ out.old.items ++ roles_text t roles.now frames) }
{
    let counts = count_roles(roles);
    push_field(out, b"tier ", u64::from(t))?;
    push_field(out, b" free ", counts.free as u64)?;
    push_field(out, b" mapped ", counts.mapped as u64)?;
    push_field(out, b" shadow ", counts.shadow as u64)?;
    push_field(out, b" held ", counts.held as u64)?;
    push_field(out, b" of ", u64::from(frames))?;
    out.push(b'\n')?;
    Ok(())
}

/// Counts the frames of each role.
fn count_roles(roles: &[Role]) -> RoleCounts
    ensures free { result.free ≡ count_by is_free_role roles.now }
    ensures mapped { result.mapped ≡ count_by is_mapped_role roles.now }
    ensures shadow { result.shadow ≡ count_by is_shadow_role roles.now }
    ensures held { result.held ≡ count_by is_held_role roles.now }
{
    let mut counts = RoleCounts {
        free: 0,
        mapped: 0,
        shadow: 0,
        held: 0,
    };
    for role in roles {
        match role {
            Role::Free => counts.free += 1,
            Role::Mapped => counts.mapped += 1,
            Role::Shadow => counts.shadow += 1,
            Role::Held => counts.held += 1,
        }
    }
    counts
}

/// Writes a line for each backing page.
fn push_each_page(out: &mut Vec<u8>, g: &Geometry, end: &EndWords) -> Result<(), AllocError>
    requires room { HasEndRoom g.now end.now }
    requires names { NamesInRange g.now end.now }
    ensures { OnOk result (out.new.items ≡ out.old.items ++ pages_text g.now end.now) }
{
    for b in 0..g.pages() {
        push_page(out, end, b)?;
    }
    Ok(())
}

/// Writes the line of a backing page.
fn push_page(out: &mut Vec<u8>, end: &EndWords, b: u32) -> Result<(), AllocError>
    requires page { b < length end.now.homes }
    requires frame { IfSome (slice_index_or end.now.homes b None) (λ f. f < length end.now.shadows) }
    ensures { OnOk result (out.new.items ≡ out.old.items ++ page_text end.now b) }
{
    push_field(out, b"page ", u64::from(b))?;
    match end.homes[b as usize] {
        None => out.extend_from_slice(b" none")?,
        Some(frame) => push_home(out, b, frame, end.shadows[frame as usize])?,
    }
    out.push(b'\n')?;
    Ok(())
}

/// Writes the frame of a backing page, and its shadow where the frame's shadow word names the page.
fn push_home(
    out: &mut Vec<u8>,
    b: u32,
    frame: u32,
    shadow: Option<(u32, u32)>,
) -> Result<(), AllocError>
    ensures { OnOk result (out.new.items ≡ out.old.items ++ codes " frame " ++ decimal frame ++ shadow_text (named_beside b shadow)) }
{
    push_field(out, b" frame ", u64::from(frame))?;
    match shadow {
        Some((page, copy)) if page == b => push_field(out, b" shadow ", u64::from(copy)),
        _ => Ok(()),
    }
}

/// Writes the four lines of counts.
fn push_tally(out: &mut Vec<u8>, tally: &Tally) -> Result<(), AllocError>
    ensures { OnOk result (out.new.items ≡ out.old.items ++ tally_text tally.now) }
{
    push_faults(out, tally)?;
    push_marks(out, tally)?;
    push_moves(out, tally)?;
    push_work(out, tally)
}

/// Writes the line of the faults.
fn push_faults(out: &mut Vec<u8>, tally: &Tally) -> Result<(), AllocError>
    ensures { OnOk result (out.new.items ≡ out.old.items ++ faults_text tally.now) }
{
    push_field(out, b"faults demand ", tally.demand)?;
    push_field(out, b" alias ", tally.alias)?;
    push_field(out, b" hint ", tally.hint)?;
    push_field(out, b" shadow ", tally.shadow)?;
    out.push(b'\n')?;
    Ok(())
}

/// Writes the line of the marks.
fn push_marks(out: &mut Vec<u8>, tally: &Tally) -> Result<(), AllocError>
    ensures { OnOk result (out.new.items ≡ out.old.items ++ marks_text tally.now) }
{
    push_field(out, b"marks set ", tally.marked)?;
    push_field(out, b" spilled ", tally.spilled)?;
    push_field(out, b" cold ", tally.cold)?;
    push_field(out, b" committed ", tally.committed)?;
    push_field(out, b" moved ", tally.moved)?;
    push_field(out, b" noframe ", tally.noframe)?;
    push_field(out, b" gone ", tally.gone)?;
    push_field(out, b" worn ", tally.worn)?;
    out.push(b'\n')?;
    Ok(())
}

/// Writes the line of the moves.
fn push_moves(out: &mut Vec<u8>, tally: &Tally) -> Result<(), AllocError>
    ensures { OnOk result (out.new.items ≡ out.old.items ++ moves_text tally.now) }
{
    push_field(out, b"moves aborted ", tally.aborted)?;
    push_field(out, b" remapped ", tally.remapped)?;
    push_field(out, b" copied ", tally.copied)?;
    push_field(out, b" words ", tally.words)?;
    out.push(b'\n')?;
    Ok(())
}

/// Writes the line of the other work.
fn push_work(out: &mut Vec<u8>, tally: &Tally) -> Result<(), AllocError>
    ensures { OnOk result (out.new.items ≡ out.old.items ++ work_text tally.now) }
{
    push_field(out, b"work flushes ", tally.flushes)?;
    push_field(out, b" reclaimed ", tally.reclaimed)?;
    out.push(b'\n')?;
    Ok(())
}

/// Writes whether the end is settled.
fn push_settled(out: &mut Vec<u8>, settled: bool) -> Result<(), AllocError>
    ensures { OnOk result (out.new.items ≡ out.old.items ++ settled_text settled) }
{
    if settled {
        out.extend_from_slice(b"settled yes\n")
    } else {
        out.extend_from_slice(b"settled no\n")
    }
}
