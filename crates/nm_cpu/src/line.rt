//! The accesses of a line, and what it gives.

ghost use Rattle.std.specs.Prelude.{◌≡◌, ◌+◌, ◌<◌, ◌^◌, IfNone};
ghost use Rattle.nm_access.specs.Accessing.{IsTouchWord};
ghost use Rattle.nm_cpu.specs.Programs.{backing_or_zero, line_access};
ghost use Rattle.nm_cpu.specs.Lines.{line_result, HasLoadsLeft};

use nm_access::{AccessMade, Touch};
use nm_base::Geometry;
use nm_report::LineResult;
use nm_script::Line;

/// The backing page, or 0 where there is none.
fn backing_or_zero(page: Option<u32>) -> u32
    ensures { result ≡ backing_or_zero page }
{
    match page {
        Some(page) => page,
        None => 0,
    }
}

/// The access that a line makes, or makes again.
pub(crate) fn line_access(g: &Geometry, line: Line) -> AccessMade
    ensures made { result ≡ line_access g.now line }
    ensures value { IsTouchWord result.touch }
{
    let (vpage, word, touch) = match line {
        Line::Load { v, w } => (v, w, Touch::Load),
        Line::Store { v, w, x } => (v, w, Touch::Store(x)),
        Line::Add { v, w, x } => (v, w, Touch::Add(x)),
        Line::Await { v, w, .. } => (v, w, Touch::Load),
    };
    AccessMade {
        vpage,
        page: backing_or_zero(g.backing(vpage)),
        word,
        touch,
    }
}

/// What a line gave whose access was told this word, after so many loads of it were made before; none where it is an
/// await that loads again. Condition: an await may make one load more.
pub(crate) fn line_result(line: Line, loads: u32, word: u64) -> Option<LineResult>
    requires { HasLoadsLeft line loads }
    ensures gives { result ≡ line_result line loads word }
    ensures fits { IfNone result (loads + 1 < 2 ^ 32) }
{
    match line {
        Line::Load { .. } => Some(LineResult::Loaded(word)),
        Line::Store { .. } => Some(LineResult::Stored),
        Line::Add { .. } => Some(LineResult::Added(word)),
        Line::Await { x, max, .. } => {
            if word == x {
                Some(LineResult::Met(loads + 1))
            } else if loads + 1 == max {
                Some(LineResult::Missed(loads + 1))
            } else {
                None
            }
        }
    }
}
