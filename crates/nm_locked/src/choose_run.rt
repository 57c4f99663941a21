//! The steps before a locked move takes the page out of the table, as one part that tells of itself by names.

ghost use Rattle.std.specs.Prelude.{◌≡◌};
ghost use Rattle.nm_locked.specs.declared.choose.Stage.TheVariants.{New};
ghost use Rattle.nm_locked.specs.ChooseRuns.{choose_run_made, IsNewChooseRun};

use crate::choose::{Choose, ChooseMade, ChoosePiece, Chosen};
use nm_base::Geometry;
use nm_compose::Composite;
use nm_event::{Action, Reply, Step};
use nm_part::{Part, Piece};

/// The steps that run.
#[derive(Drop)]
pub struct ChooseRun<'a> {
    run: Composite<Choose<'a>, ChoosePiece>,
}

impl<'a> ChooseRun<'a> {
    /// The steps of this plan.
    pub fn new(plan: Choose<'a>) -> ChooseRun<'a>
        requires { plan.stage ≡ New }
        ensures made { choose_run_made result ≡ record { 0 = plan.entry.geometry.now; 1 = plan.entry.made } }
        ensures new { IsNewChooseRun result }
    {
        ChooseRun {
            run: Composite::new(plan),
        }
    }
}

impl<'a> Part for ChooseRun<'a> {
    type Outcome = Chosen;

    type Made = (Geometry, ChooseMade);

    ghost use Rattle.nm_locked.specs.Chosen.{IsChosen};
    ghost use Rattle.nm_locked.specs.ChooseRuns.{choose_run_made, IsNewChooseRun, MayChooseOf, IsChoosingOf, AwaitsChooseRun};

    ghost made = { choose_run_made };

    ghost is_new = { IsNewChooseRun };

    ghost may_begin = { MayChooseOf };

    ghost shape = { IsChoosingOf };

    ghost leaves = { λ made g view outcome left. IsChosen made.1 g view outcome left };

    ghost awaits = { AwaitsChooseRun };

    ghost ended = { λ r g own outcome. Unit {0} };

    fn first(&mut self) -> Step<Chosen> {
        Step::Do(self.start())
    }

    fn after(&mut self, reply: Reply) -> Step<Chosen> {
        self.run.after(reply)
    }
}

impl<'a> Piece for ChooseRun<'a> {
    fn start(&mut self) -> Action {
        self.run.start()
    }
}
