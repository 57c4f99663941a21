//! What a report is made from.

use crate::line_result::LineResult;
use nm_action::Tally;
use nm_core::EndWords;
use nm_script::Script;
use std::marker::Model;

/// A run: what it was given, what its lines gave, how it ended, and what was counted.
#[derive(Debug, Drop)]
pub struct Report<'a> {
    /// What the run was given.
    pub script: &'a Script,
    /// For each processor what the lines of its program gave, in order, as far as they were made.
    pub results: &'a [Vec<LineResult>],
    /// The words at the end.
    pub end: &'a EndWords,
    /// The counts of all actors.
    pub tally: Tally,
}

impl<'a> Model for Report<'a> {
    ghost use Rattle.std.specs.Prelude.{map};
    ghost use Rattle.nm_report.specs.Plain as plain;

    ghost Value = { plain.Report };

    ghost view = { λ r. record { script = r.script.now; results = map (λ v. v.items) r.results.now; end = r.end.now; tally = r.tally } };
}
