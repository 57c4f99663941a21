//! The words as a command line: a command with its fields.

ghost use Rattle.std.specs.Prelude.{◌≡◌, ◌↔◌, IsTrue, IfOk, IfSome, IfNone, Some, None, All, false, map, string_bytes};
ghost use Rattle.clap.specs.Walk.{texts};
ghost use Rattle.clap.specs.Words.{all_of, app_of, found_of, rows_of, subcommand_rows_of};
ghost use Rattle.nm_command.specs.Line.{nomad, script_line, lab, is_refused, IsTwoFieldCommand, IsCommandOf, Reads, SaysFields, HasValues, LacksValues};

use clap::error::ErrorKind;
use clap::{Arg, ArgMatches, Command};
use std::alloc::{AllocError, Global};

/// The most runs of a lab.
const MOST_RUNS: usize = 8;

/// A command of the program with its fields.
#[derive(Clone, Copy, Debug)]
pub enum Fields<'a, 'b> {
    /// `sim`
    Sim,
    /// `gen N SIZE`
    Gen {
        /// The field N.
        number: &'a str,
        /// The field SIZE.
        size: &'a str,
    },
    /// `drill N SIZE`
    Drill {
        /// The field N.
        number: &'a str,
        /// The field SIZE.
        size: &'a str,
    },
    /// `import F S`
    Import {
        /// The field F.
        fast: &'a str,
        /// The field S.
        slow: &'a str,
    },
    /// `run`
    Run,
    /// `journal`
    Journal,
    /// `check`
    Check,
    /// `lab WORD ...`
    Lab {
        /// The words behind `lab`, one to eight.
        retries: &'b [&'a str],
    },
}

/// What clap read of the words. None exactly where there is no word, a word is an option or `help`, or clap takes them
/// for no command with its fields. `AllocError` comes where there is no memory to read them.
pub fn matches_of<'a>(
    alloc: Global,
    words: &'a [String],
) -> Result<Option<ArgMatches<'a>>, AllocError>
    ensures { IfOk result (Reads (map string_bytes words.now)) }
{
    if words.is_empty() {
        return Ok(None);
    }
    if !are_fields(words) {
        return Ok(None);
    }
    let command = make_command(alloc)?;
    match command.try_get_matches_from(words) {
        Ok(matches) => Ok(Some(matches)),
        Err(error) if error.kind() == ErrorKind::OutOfMemory => Err(AllocError),
        Err(_) => Ok(None),
    }
}

/// The command that was met, and its fields.
pub fn fields_in<'a, 'b>(matches: &'b ArgMatches<'a>) -> Option<Fields<'a, 'b>>
    ensures { SaysFields (subcommand_rows_of matches.now) result }
{
    match matches.subcommand()? {
        ("sim", _) => Some(Fields::Sim),
        ("gen", inner) => {
            let (number, size) = two_values(inner, "N", "SIZE")?;
            Some(Fields::Gen { number, size })
        }
        ("drill", inner) => {
            let (number, size) = two_values(inner, "N", "SIZE")?;
            Some(Fields::Drill { number, size })
        }
        ("import", inner) => {
            let (fast, slow) = two_values(inner, "F", "S")?;
            Some(Fields::Import { fast, slow })
        }
        ("run", _) => Some(Fields::Run),
        ("journal", _) => Some(Fields::Journal),
        ("check", _) => Some(Fields::Check),
        ("lab", inner) => {
            let retries = several_values(inner, "WORD")?;
            Some(Fields::Lab { retries })
        }
        _ => None,
    }
}

/// The values of two fields.
fn two_values<'a>(matches: &ArgMatches<'a>, first: &str, second: &str) -> Option<(&'a str, &'a str)>
    ensures some { IfSome result (λ f. HasValues first.now second.now (rows_of (found_of matches.now)) f.0.now f.1.now) }
    ensures none { IfNone result (LacksValues first.now second.now (rows_of (found_of matches.now))) }
{
    let Some(a) = matches.get_str(first) else {
        return None;
    };
    let Some(b) = matches.get_str(second) else {
        return None;
    };
    Some((a, b))
}

/// The values of a field that takes several.
fn several_values<'a, 'b>(matches: &'b ArgMatches<'a>, id: &str) -> Option<&'b [&'a str]>
    ensures some { IfSome result (λ v. all_of id.now (rows_of (found_of matches.now)) ≡ Some (texts v.now)) }
    ensures none { IfNone result (all_of id.now (rows_of (found_of matches.now)) ≡ None) }
{
    matches.get_strs(id)
}

/// Whether no word begins with `-` or is `help`.
fn are_fields(words: &[String]) -> bool
    ensures { IsTrue result ↔ All (λ w. is_refused (string_bytes w) ≡ false) words.now }
{
    words.iter().all(|word| !is_refused(word))
}

/// Whether a word begins with `-` or is `help`.
fn is_refused(word: &str) -> bool
    ensures { result ≡ is_refused word.now }
{
    word.as_bytes().first() == Some(&b'-') || word == "help"
}

/// The command line of the program.
fn make_command<'a>(alloc: Global) -> Result<Command<'a>, AllocError>
    ensures { IfOk result (λ c. app_of c ≡ nomad) }
{
    let running = Command::new(alloc, "run");
    let journal = Command::new(alloc, "journal");
    let checking = Command::new(alloc, "check");
    let lab = lab_command(alloc)?;
    script_commands(alloc)?
        .subcommand(running)?
        .subcommand(journal)?
        .subcommand(checking)?
        .subcommand(lab)
}

/// The commands of scripts and traces. Help is no form of the words, so it has none.
fn script_commands<'a>(alloc: Global) -> Result<Command<'a>, AllocError>
    ensures { IfOk result (λ c. app_of c ≡ script_line) }
{
    let sim = Command::new(alloc, "sim");
    let generate = two_field_command(alloc, "gen", "N", "SIZE")?;
    let drill = two_field_command(alloc, "drill", "N", "SIZE")?;
    let importing = two_field_command(alloc, "import", "F", "S")?;
    Command::new(alloc, "nomad")
        .no_binary_name(true)
        .disable_help_flag(true)
        .disable_help_subcommand(true)
        .subcommand(sim)?
        .subcommand(generate)?
        .subcommand(drill)?
        .subcommand(importing)
}

/// A subcommand with two fields.
fn two_field_command<'a>(
    alloc: Global,
    name: &'a str,
    first: &'a str,
    second: &'a str,
) -> Result<Command<'a>, AllocError>
    ensures { IfOk result (IsTwoFieldCommand name.entry.now first.entry.now second.entry.now) }
{
    let first = Arg::new(alloc, first).required(true);
    let second = Arg::new(alloc, second).required(true);
    Command::new(alloc, name).arg(first)?.arg(second)
}

/// The subcommand `lab`, with one to eight words.
fn lab_command<'a>(alloc: Global) -> Result<Command<'a>, AllocError>
    ensures { IfOk result (IsCommandOf lab) }
{
    let word = Arg::new(alloc, "WORD")
        .required(true)
        .num_args(1..=MOST_RUNS);
    Command::new(alloc, "lab").arg(word)
}
