//! The sweep as one part, which tells of itself by names.

ghost use Rattle.std.specs.Prelude.{◌≡◌};
ghost use Rattle.nm_reclaim.specs.Sweeping.{sweep_made, new_place};
ghost use Rattle.nm_reclaim.specs.Runs.{sweep_run_made, IsNewSweepRun};

use crate::sweep::{Sweep, SweepMade, SweepPiece};
use nm_base::Geometry;
use nm_compose::Composite;
use nm_event::{Action, Reply, Step};
use nm_part::{Part, Piece};

/// A sweep that runs.
#[derive(Drop)]
pub struct SweepRun<'a> {
    run: Composite<Sweep<'a>, SweepPiece>,
}

impl<'a> SweepRun<'a> {
    /// The sweep of this plan. Condition: it has not begun.
    pub fn new(plan: Sweep<'a>) -> SweepRun<'a>
        requires { plan.place ≡ new_place plan.made }
        ensures made { sweep_run_made result ≡ sweep_made plan.entry.geometry.now plan.entry.made }
        ensures new { IsNewSweepRun result }
    {
        SweepRun {
            run: Composite::new(plan),
        }
    }

    /// How many shadows were freed so far.
    pub(crate) fn freed(&self) -> u32
        ensures { result ≡ self.now.run.plan.place.freed }
    {
        self.run.plan().freed()
    }
}

impl<'a> Part for SweepRun<'a> {
    type Outcome = u32;

    type Made = (Geometry, SweepMade);

    ghost use Rattle.std.specs.Prelude.{◌≡◌};
    ghost use Rattle.nm_reclaim.specs.Sweeping.{MaySweep, IsSweep, SweepLeaves};
    ghost use Rattle.nm_reclaim.specs.Runs.{sweep_run_made, IsNewSweepRun, AwaitsSweepRun};

    ghost made = { sweep_run_made };

    ghost is_new = { IsNewSweepRun };

    ghost may_begin = { MaySweep };

    ghost shape = { IsSweep };

    ghost leaves = { SweepLeaves };

    ghost awaits = { AwaitsSweepRun };

    ghost ended = { λ r g own freed. r.run.plan.place.freed ≡ freed };

    fn first(&mut self) -> Step<u32> {
        Step::Do(self.start())
    }

    fn after(&mut self, reply: Reply) -> Step<u32> {
        self.run.after(reply)
    }
}

impl<'a> Piece for SweepRun<'a> {
    fn start(&mut self) -> Action {
        self.run.start()
    }
}
