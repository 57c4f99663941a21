//! What the words ask for.

ghost use Rattle.std.specs.Prelude.{◌≡◌, ◌↔◌, ◌+◌, ◌≤◌, ◌<◌, ℕ, List, [], ◌∷◌, Option, Some, IfOk, IfSome, IfNone, IsTrue, codes, length};
ghost use Rattle.clap.specs.Walk.{texts};
ghost use Rattle.clap.specs.Words.{subcommand_rows_of};
ghost use Rattle.nm_command.specs.declared.form.Form.{Form};
ghost use Rattle.nm_command.specs.Line.{IsRead};
ghost use Rattle.nm_command.specs.Words.{IsAnswer, IsFormOf, SayNumbers, SayRetries, SayTierSizes, SaysRetry};

use crate::line::{Fields, fields_in, matches_of};
use clap::ArgMatches;
use nm_text::read_number;
use std::alloc::{AllocError, Global};
use std::marker::Model;

/// The most lines of programs of a generated script.
const MOST_LINES: u64 = 100_000;
/// The most frames of two tiers together.
const MOST_FRAMES: u64 = 4096;
/// The most aborts that a retry says.
const MOST_ABORTS: u64 = 1000;

/// The retries of a lab, one to eight, in the order of their words. Contracts see the list.
#[derive(Debug, Drop)]
pub struct Retries {
    /// After how many aborts a page goes to the locked move, 0 to 1,000; None is never.
    pub items: Vec<Option<u32>>,
}

impl Model for Retries {
    ghost use Rattle.std.specs.Prelude.{ℕ, List, Option};

    ghost Value = { List (Option ℕ) };

    ghost view = { λ r. r.items.items };
}

/// What the words ask for.
#[derive(Debug, Drop)]
pub enum Form {
    /// `sim`
    Sim,
    /// `gen N SIZE`
    Gen {
        /// The number.
        number: u64,
        /// The lines of programs, 1 to 100,000.
        size: u32,
    },
    /// `drill N SIZE`
    Drill {
        /// The number.
        number: u64,
        /// The lines of programs, 1 to 100,000.
        size: u32,
    },
    /// `import F S`
    Import {
        /// The frames of the fast tier, 1 to 4,095. With those of the slow one at most 4,096.
        fast: u32,
        /// The frames of the slow tier, 1 to 4,095.
        slow: u32,
    },
    /// `run`
    Run,
    /// `journal`
    Journal,
    /// `check`
    Check,
    /// `lab WORD ...`
    Lab {
        /// A retry for each word.
        retries: Retries,
    },
}

/// The form of the words. None exactly where they have none. `AllocError` comes where there is no memory to read them.
pub fn form_of(alloc: Global, words: &[String]) -> Result<Option<Form>, AllocError>
    ensures { IfOk result (λ o. (form : Form) → (o ≡ Some form) ↔ IsFormOf form words.now) }
{
    match matches_of(alloc, words)? {
        None => Ok(None),
        Some(matches) => form_in(alloc, &matches),
    }
}

/// The form of the words of which clap read these matches. `AllocError` comes where there is no memory for it.
fn form_in(alloc: Global, matches: &ArgMatches<'_>) -> Result<Option<Form>, AllocError>
    ensures { IfOk result (λ o. (words : List (List ℕ)) → IsRead words (subcommand_rows_of matches.now) → IsAnswer o words) }
{
    match fields_in(matches) {
        None => Ok(None),
        Some(Fields::Sim) => Ok(Some(Form::Sim)),
        Some(Fields::Gen { number, size }) => Ok(gen_form(number, size)),
        Some(Fields::Drill { number, size }) => Ok(drill_form(number, size)),
        Some(Fields::Import { fast, slow }) => Ok(import_form(fast, slow)),
        Some(Fields::Run) => Ok(Some(Form::Run)),
        Some(Fields::Journal) => Ok(Some(Form::Journal)),
        Some(Fields::Check) => Ok(Some(Form::Check)),
        Some(Fields::Lab { retries }) => lab_form(alloc, retries),
    }
}

/// The form of the fields of `gen`.
fn gen_form(number: &str, size: &str) -> Option<Form>
    ensures { IsAnswer result (codes "gen" ∷ number.now ∷ size.now ∷ []) }
{
    let (number, size) = numbers_of(number, size)?;
    Some(Form::Gen { number, size })
}

/// The form of the fields of `drill`.
fn drill_form(number: &str, size: &str) -> Option<Form>
    ensures { IsAnswer result (codes "drill" ∷ number.now ∷ size.now ∷ []) }
{
    let (number, size) = numbers_of(number, size)?;
    Some(Form::Drill { number, size })
}

/// The number and the size that two fields say.
fn numbers_of(number: &str, size: &str) -> Option<(u64, u32)>
    ensures { (n s : ℕ) → (result ≡ Some (n, s)) ↔ SayNumbers number.now size.now n s }
{
    let number = read_number(number.as_bytes())?;
    let size = read_number(size.as_bytes())?;
    if size == 0 {
        return None;
    }
    if size > MOST_LINES {
        return None;
    }
    Some((number, size as u32))
}

/// The form of the fields of `import`.
fn import_form(fast: &str, slow: &str) -> Option<Form>
    ensures { IsAnswer result (codes "import" ∷ fast.now ∷ slow.now ∷ []) }
{
    let (fast, slow) = sizes_of(fast, slow)?;
    Some(Form::Import { fast, slow })
}

/// The sizes of two tiers that two fields say.
fn sizes_of(fast: &str, slow: &str) -> Option<(u32, u32)>
    ensures { (f s : ℕ) → (result ≡ Some (f, s)) ↔ SayTierSizes fast.now slow.now f s }
{
    let fast = read_number(fast.as_bytes())?;
    let slow = read_number(slow.as_bytes())?;
    if !are_tier_sizes(fast, slow) {
        return None;
    }
    Some((fast as u32, slow as u32))
}

/// Whether two tiers can have this many frames.
fn are_tier_sizes(fast: u64, slow: u64) -> bool
    ensures { IsTrue result ↔ ((1 ≤ fast) × (1 ≤ slow) × (fast + slow ≤ 4096)) }
{
    if fast > MOST_FRAMES {
        return false;
    }
    if slow > MOST_FRAMES {
        return false;
    }
    1 <= fast && 1 <= slow && fast + slow <= MOST_FRAMES
}

/// The form of the fields of `lab`. `AllocError` comes where there is no memory for the list.
fn lab_form(alloc: Global, retries: &[&str]) -> Result<Option<Form>, AllocError>
    ensures { IfOk result (λ o. 1 ≤ length retries.now → length retries.now ≤ 8 → IsAnswer o (codes "lab" ∷ texts retries.now)) }
{
    match retries_in(alloc, retries)? {
        None => Ok(None),
        Some(items) => {
            let retries = Retries { items };
            Ok(Some(Form::Lab { retries }))
        }
    }
}

/// The retries that the words say. None where one of them says none. `AllocError` comes where there is no memory for the list.
fn retries_in(alloc: Global, words: &[&str]) -> Result<Option<Vec<Option<u32>>>, AllocError>
    ensures some { IfOk result (λ o. IfSome o (λ v. SayRetries (texts words.now) v.items)) }
    ensures none { IfOk result (λ o. IfNone o ((retries : List (Option ℕ)) → ¬ SayRetries (texts words.now) retries)) }
{
    let mut retries = Vec::new(alloc);
    for word in words {
        match read_retry(word) {
            None => return Ok(None),
            Some(retry) => retries.push(retry)?,
        }
    }
    Ok(Some(retries))
}

/// The retry that a word says. None where it says none.
fn read_retry(word: &str) -> Option<Option<u32>>
    ensures { (retry : Option ℕ) → (result ≡ Some retry) ↔ SaysRetry word.now retry }
{
    if word == "never" {
        return Some(None);
    }
    let number = read_number(word.as_bytes())?;
    if number > MOST_ABORTS {
        return None;
    }
    Some(Some(number as u32))
}
