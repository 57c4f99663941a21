//! What it means for the results that a processor's accesses follow its program.

ghost use Rattle.nm_report.specs.Texts.{AllFit};
ghost use Rattle.nm_report.specs.Follows.{FollowsProgram};

use crate::line_result::LineResult;
use nm_flat::Access;
use nm_script::Line;

/// Where a processor's accesses follow its program with some results, the results are no more than the lines, and each
/// fits its line, so a report can print them.
pub fn follows_fits(
    cpu: u32,
    ended: bool,
    program: &[Line],
    results: &[LineResult],
    list: &[Access],
)
    requires { FollowsProgram cpu ended program.now results.now list.now }
    ensures { AllFit program.now results.now }
{}
