//! One run of a script.

ghost use Rattle.std.specs.Prelude.{◌≡◌};
ghost use Rattle.nm_script.specs.Plain.{Script};
ghost use Rattle.nm_programs.specs.Plain.{SimRun};
ghost use Rattle.nm_programs.specs.Runs.{IsRunWith};
ghost use Rattle.nm_one_sim.specs.OnePart.{LeavesOnePart};

/// What is said of an actor's part of a run.
pub trait CountedPart {
    ghost use Rattle.std.specs.Prelude.{Bool};
    ghost use Rattle.nm_action.specs.declared.tally.Tally.{Tally};
    ghost use Rattle.nm_actor.specs.Turns.{Turns};

    // Of its answered turns, whether it has ended, and what it has counted.
    ghost part: { Turns → Bool → Tally → Type 0 };
}

/// Two runs of one script are the same, in events, order, results, end words and counts, where what is said of the migrator and of the
/// reclaimer leaves each one part.
pub fn a_script_has_one_run<M: CountedPart, R: CountedPart>()
    ensures { (script : Script) (run other : SimRun) → LeavesOnePart M.part → LeavesOnePart R.part
        → IsRunWith M.part R.part script run → IsRunWith M.part R.part script other → run ≡ other }
{}
