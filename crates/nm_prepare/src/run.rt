//! The steps up to the first flush as one part, which tells of itself by names.

ghost use Rattle.std.specs.Prelude.{◌≡◌};
ghost use Rattle.nm_prepare.specs.declared.prepare.Stage.TheVariants.{New};
ghost use Rattle.nm_prepare.specs.Runs.{prepare_run_made, IsNewPrepareRun};

use crate::prepare::{Prepare, PrepareMade, PreparePiece, Prepared};
use nm_base::Geometry;
use nm_compose::Composite;
use nm_event::{Action, Reply, Step};
use nm_part::{Part, Piece};

/// The steps that run.
#[derive(Drop)]
pub struct PrepareRun<'a> {
    run: Composite<Prepare<'a>, PreparePiece>,
}

impl<'a> PrepareRun<'a> {
    /// The steps of this plan.
    pub fn new(plan: Prepare<'a>) -> PrepareRun<'a>
        requires { plan.stage ≡ New }
        ensures made { prepare_run_made result ≡ record { 0 = plan.entry.geometry.now; 1 = plan.entry.made } }
        ensures new { IsNewPrepareRun result }
    {
        PrepareRun {
            run: Composite::new(plan),
        }
    }
}

impl<'a> Part for PrepareRun<'a> {
    type Outcome = Prepared;

    type Made = (Geometry, PrepareMade);

    ghost use Rattle.nm_prepare.specs.Ready.{IsPrepared};
    ghost use Rattle.nm_prepare.specs.Runs.{prepare_run_made, IsNewPrepareRun, MayPrepareOf, IsPrepareOf, AwaitsPrepareRun};

    ghost made = { prepare_run_made };

    ghost is_new = { IsNewPrepareRun };

    ghost may_begin = { MayPrepareOf };

    ghost shape = { IsPrepareOf };

    ghost leaves = { λ made g view outcome left. IsPrepared made.1 g view outcome left };

    ghost awaits = { AwaitsPrepareRun };

    ghost ended = { λ r g own outcome. Unit {0} };

    fn first(&mut self) -> Step<Prepared> {
        Step::Do(self.start())
    }

    fn after(&mut self, reply: Reply) -> Step<Prepared> {
        self.run.after(reply)
    }
}

impl<'a> Piece for PrepareRun<'a> {
    fn start(&mut self) -> Action {
        self.run.start()
    }
}
