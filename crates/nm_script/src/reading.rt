//! Reading the lines that tell the machine and the schedule.

ghost use Rattle.std.specs.Prelude.{◌≡◌, ◌≤◌, Some, None, IfOk, is_some, codes};
ghost use Rattle.nm_text.specs.Cuts.{strip_of};
ghost use Rattle.nm_script.specs.LineFaults.{is_page_size};
ghost use Rattle.nm_script.specs.Reading.{header_in, page_in, page_line, tiers_in, tiers_line, node_in, node_line, cpus_in, cpus_line, ranged_in, retry_line, serial_in, shuffle_in, plan_in, schedule_line, cpu_after, actor_in, go_in, go_line};
ghost use Rattle.std.specs.Option.{option_map};

use crate::fault::ScriptFault;
use crate::fields::{below_in, go_fields, number_in, ranged_in, shuffle_fields};
use crate::item::Item;
use crate::limits::{MOST_FRAMES, MOST_TURNS};
use crate::schedule::PlanItem;
use nm_action::ActionKind;
use nm_text::{is_text, one_field, strip, two_fields};
use nm_tiers::Node;

/// What a line says, or its first fault. None where the line is of another form.
pub type Read = Option<Result<Item, ScriptFault>>;

/// The first line.
#[tactic(auto, unfolding(crate::specs::Reading::header_in))]
pub fn header_in(line: &[u8]) -> Result<Item, ScriptFault>
    ensures { result ≡ header_in line.now }
{
    if is_text(line, b"nomad 1") {
        Ok(Item::Version(1))
    } else if is_text(line, b"nomad 2") {
        Ok(Item::Version(2))
    } else {
        Err(ScriptFault::BadHeader)
    }
}

/// Whether pages can have this many words.
fn is_page_size(words: u32) -> bool
    ensures { result ≡ is_page_size words }
{
    matches!(words, 1 | 2 | 4 | 8 | 16 | 32 | 64 | 128 | 256 | 512)
}

/// The words of a page.
#[tactic(auto, unfolding(crate::specs::Reading::page_in))]
fn page_in(width: &[u8]) -> Result<Item, ScriptFault>
    ensures { result ≡ page_in width.now }
{
    let words = ranged_in(1, 512, width)?;
    if is_page_size(words) {
        Ok(Item::Page(words))
    } else {
        Err(ScriptFault::OutOfRange)
    }
}

/// The line of the page.
#[tactic(auto, unfolding(crate::specs::Reading::page_line))]
pub fn page_line(line: &[u8]) -> Read
    ensures { result ≡ page_line line.now }
{
    let width = one_field(line, b"page ")?;
    Some(page_in(width))
}

/// The frames of both tiers.
#[tactic(auto, unfolding(crate::specs::Reading::tiers_in))]
fn tiers_in(fast: &[u8], slow: &[u8]) -> Result<Item, ScriptFault>
    ensures { result ≡ tiers_in (fast.now, slow.now) }
{
    let fast = ranged_in(1, 4095, fast)?;
    let slow = ranged_in(1, 4095, slow)?;
    if fast + slow <= MOST_FRAMES {
        Ok(Item::Tiers(fast, slow))
    } else {
        Err(ScriptFault::OutOfRange)
    }
}

/// The line of the tiers.
#[tactic(auto, unfolding(crate::specs::Reading::tiers_line))]
pub fn tiers_line(line: &[u8]) -> Read
    ensures { result ≡ tiers_line line.now }
{
    let (fast, slow) = two_fields(line, b"tiers ")?;
    Some(tiers_in(fast, slow))
}

/// A node after nodes with this many frames.
#[tactic(auto, unfolding(crate::specs::Reading::node_in))]
fn node_in(before: u32, distance: &[u8], frames: &[u8]) -> Result<Item, ScriptFault>
    requires { before ≤ MOST_FRAMES }
    ensures { result ≡ node_in before (distance.now, frames.now) }
{
    let distance = ranged_in(0, 65535, distance)?;
    let frames = ranged_in(1, 4095, frames)?;
    if before + frames <= MOST_FRAMES {
        Ok(Item::Node(Node { distance, frames }))
    } else {
        Err(ScriptFault::OutOfRange)
    }
}

/// The line of a node after nodes with this many frames.
#[tactic(auto, unfolding(crate::specs::Reading::node_line))]
pub fn node_line(before: u32, line: &[u8]) -> Read
    requires { before ≤ MOST_FRAMES }
    ensures { result ≡ node_line before line.now }
{
    let (distance, frames) = two_fields(line, b"node ")?;
    Some(node_in(before, distance, frames))
}

/// The processors after this many tiers.
#[tactic(auto, unfolding(crate::specs::Reading::cpus_in))]
fn cpus_in(tiers: usize, field: &[u8]) -> Result<Item, ScriptFault>
    ensures { result ≡ cpus_in tiers field.now }
{
    let cpus = ranged_in(1, 16, field)?;
    if tiers < 2 {
        Err(ScriptFault::TooFewTiers)
    } else {
        Ok(Item::Cpus(cpus))
    }
}

/// The line of the processors after this many tiers.
#[tactic(auto, unfolding(crate::specs::Reading::cpus_line))]
pub fn cpus_line(tiers: usize, line: &[u8]) -> Read
    ensures { result ≡ cpus_line tiers line.now }
{
    let field = one_field(line, b"cpus ")?;
    Some(cpus_in(tiers, field))
}

/// The line of the retry, which version 2 may have.
#[tactic(auto, unfolding(crate::specs::Reading::retry_line, crate::specs::Reading::retry_in))]
pub fn retry_line(version: u32, line: &[u8]) -> Read
    ensures { result ≡ retry_line version line.now }
{
    if version != 2 {
        return None;
    }
    let field = one_field(line, b"retry ")?;
    Some(ranged_in(0, 1000, field).map(Item::Retry))
}

/// The turns of a serial schedule.
#[tactic(auto, unfolding(crate::specs::Reading::serial_in))]
fn serial_in(field: &[u8]) -> Result<Item, ScriptFault>
    ensures { result ≡ serial_in field.now }
{
    ranged_in(0, MOST_TURNS, field).map(Item::Serial)
}

/// The number and the turns of a shuffle.
#[tactic(auto, unfolding(crate::specs::Reading::shuffle_in))]
fn shuffle_in(number: &[u8], turns: &[u8]) -> Result<Item, ScriptFault>
    ensures { result ≡ shuffle_in (number.now, turns.now) }
{
    let number = number_in(number)?;
    let turns = ranged_in(0, MOST_TURNS, turns)?;
    Ok(Item::Shuffle(number, turns))
}

/// The turns of a plan.
#[tactic(auto, unfolding(crate::specs::Reading::plan_in))]
fn plan_in(field: &[u8]) -> Result<Item, ScriptFault>
    ensures { result ≡ plan_in field.now }
{
    ranged_in(0, MOST_TURNS, field).map(Item::Plan)
}

/// The line of the schedule.
#[tactic(auto, unfolding(crate::specs::Reading::schedule_line))]
pub fn schedule_line(line: &[u8]) -> Read
    ensures { result ≡ schedule_line line.now }
{
    if let Some(field) = one_field(line, b"serial turns ") {
        return Some(serial_in(field));
    }
    if let Some((number, turns)) = shuffle_fields(line) {
        return Some(shuffle_in(number, turns));
    }
    let field = one_field(line, b"plan turns ")?;
    Some(plan_in(field))
}

/// An actor among this many processors.
#[tactic(auto, unfolding(crate::specs::Reading::actor_in, crate::specs::Reading::cpu_after))]
fn actor_in(cpus: u32, field: &[u8]) -> Result<u32, ScriptFault>
    requires { cpus ≤ 16 }
    ensures { result ≡ actor_in cpus field.now }
{
    if is_text(field, b"m") {
        return Ok(cpus);
    }
    if is_text(field, b"r") {
        return Ok(cpus + 1);
    }
    match strip(field, b"c") {
        None => Err(ScriptFault::BadLine),
        Some(number) => below_in(cpus, number),
    }
}

/// An item of a plan.
#[tactic(auto, unfolding(crate::specs::Reading::go_in))]
fn go_in(cpus: u32, actor: &[u8], kind: ActionKind, count: &[u8]) -> Result<Item, ScriptFault>
    requires { cpus ≤ 16 }
    ensures { result ≡ go_in cpus (actor.now, kind, count.now) }
{
    let actor = actor_in(cpus, actor)?;
    let count = ranged_in(1, 1_000_000, count)?;
    Ok(Item::Go(PlanItem { actor, kind, count }))
}

/// The line of an item of a plan.
#[tactic(auto, unfolding(crate::specs::Reading::go_line))]
pub fn go_line(cpus: u32, line: &[u8]) -> Read
    requires { cpus ≤ 16 }
    ensures { result ≡ go_line cpus line.now }
{
    let (actor, kind, count) = go_fields(line)?;
    Some(go_in(cpus, actor, kind, count))
}
