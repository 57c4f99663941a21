//! What the lines of a program gave follows from the accesses that they made.

ghost use Rattle.std.specs.Prelude.{◌≡◌, ℕ, Bool, List};
ghost use Rattle.nm_flat.specs.declared.access.Access.{Access};
ghost use Rattle.nm_script.specs.declared.script.Line.{Line};
ghost use Rattle.nm_report.specs.declared.line_result.LineResult.{LineResult};
ghost use Rattle.nm_report.specs.Follows.{FollowsProgram};

/// A list of accesses follows a program with one list of results.
pub fn accesses_have_one_list_of_results()
    ensures { (cpu : ℕ) (ended over : Bool) (program : List Line) (results others : List LineResult) (list : List Access)
        → FollowsProgram cpu ended program results list → FollowsProgram cpu over program others list → results ≡ others }
{}
