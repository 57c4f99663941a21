//! The decision of a transaction as one part, which tells of itself by names.

ghost use Rattle.std.specs.Prelude.{◌≡◌};
ghost use Rattle.nm_commit.specs.declared.decide.DecideStage.TheVariants.{Start};
ghost use Rattle.nm_commit.specs.Runs.{decide_run_made, IsNewDecideRun};

use crate::decide::{Decide, DecideMade, DecidePiece, Decided};
use nm_base::Geometry;
use nm_compose::Composite;
use nm_event::{Action, Reply, Step};
use nm_part::{Part, Piece};

/// A decision that runs.
#[derive(Drop)]
pub struct DecideRun<'a> {
    run: Composite<Decide<'a>, DecidePiece>,
}

impl<'a> DecideRun<'a> {
    /// The decision of this plan.
    pub fn new(plan: Decide<'a>) -> DecideRun<'a>
        requires { plan.stage ≡ Start }
        ensures made { decide_run_made result ≡ record { 0 = plan.entry.geometry.now; 1 = plan.entry.made } }
        ensures new { IsNewDecideRun result }
    {
        DecideRun {
            run: Composite::new(plan),
        }
    }
}

impl<'a> Part for DecideRun<'a> {
    type Outcome = Decided;

    type Made = (Geometry, DecideMade);

    ghost use Rattle.nm_commit.specs.Deciding.{IsDecision};
    ghost use Rattle.nm_commit.specs.Runs.{decide_run_made, IsNewDecideRun, MayDecideOf, IsDecidingOf, AwaitsDecideRun};

    ghost made = { decide_run_made };

    ghost is_new = { IsNewDecideRun };

    ghost may_begin = { MayDecideOf };

    ghost shape = { IsDecidingOf };

    ghost leaves = { λ made g view outcome left. IsDecision made.1 view left };

    ghost awaits = { AwaitsDecideRun };

    ghost ended = { λ r g own outcome. Unit {0} };

    fn first(&mut self) -> Step<Decided> {
        Step::Do(self.start())
    }

    fn after(&mut self, reply: Reply) -> Step<Decided> {
        self.run.after(reply)
    }
}

impl<'a> Piece for DecideRun<'a> {
    fn start(&mut self) -> Action {
        self.run.start()
    }
}
