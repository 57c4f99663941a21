//! The zeroing of a frame as one part, which tells of itself by names.

ghost use Rattle.std.specs.Prelude.{◌≡◌};
ghost use Rattle.nm_copying.specs.declared.zeroes.ZeroStage.TheVariants.{Fresh};
ghost use Rattle.nm_copying.specs.Runs.{zeroes_run_made, IsNewZeroesRun};

use crate::zeroes::{Zeroes, ZeroesMade};
use nm_compose::{Act, Composite};
use nm_event::{Action, Reply, Step};
use nm_part::{Part, Piece};

/// A zeroing of a frame that runs.
#[derive(Drop)]
pub struct ZeroesRun {
    run: Composite<Zeroes, Act>,
}

impl ZeroesRun {
    /// The zeroing of this plan.
    pub fn new(plan: Zeroes) -> ZeroesRun
        requires { plan.stage ≡ Fresh }
        ensures made { zeroes_run_made result ≡ plan.made }
        ensures new { IsNewZeroesRun result }
    {
        ZeroesRun {
            run: Composite::new(plan),
        }
    }
}

impl Part for ZeroesRun {
    type Outcome = ();

    type Made = ZeroesMade;

    ghost use Rattle.nm_copying.specs.Zeroing.{MayZeroes, IsZeroing, IsZeroed};
    ghost use Rattle.nm_copying.specs.Runs.{zeroes_run_made, IsNewZeroesRun, AwaitsZeroesRun};

    ghost made = { zeroes_run_made };

    ghost is_new = { IsNewZeroesRun };

    ghost may_begin = { MayZeroes };

    ghost shape = { IsZeroing };

    ghost leaves = { λ made g view end left. IsZeroed made view left };

    ghost awaits = { AwaitsZeroesRun };

    ghost ended = { λ r g own end. Unit {0} };

    fn first(&mut self) -> Step<()> {
        Step::Do(self.start())
    }

    fn after(&mut self, reply: Reply) -> Step<()> {
        self.run.after(reply)
    }
}

impl Piece for ZeroesRun {
    fn start(&mut self) -> Action {
        self.run.start()
    }
}
