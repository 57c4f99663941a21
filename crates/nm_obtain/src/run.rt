//! The search for a frame as one part, which tells of itself by names.

ghost use Rattle.std.specs.Prelude.{◌≡◌};
ghost use Rattle.nm_obtain.specs.Searching.{IsNewObtain};
ghost use Rattle.nm_obtain.specs.Runs.{obtain_run_made, IsNewObtainRun};

use crate::obtain::{Obtain, ObtainMade, ObtainPiece, Obtained};
use nm_base::Geometry;
use nm_compose::Composite;
use nm_event::{Action, Reply, Step};
use nm_part::{Part, Piece};

/// A search that runs.
#[derive(Drop)]
pub struct ObtainRun<'a> {
    run: Composite<Obtain<'a>, ObtainPiece<'a>>,
}

impl<'a> ObtainRun<'a> {
    /// The search of this plan.
    pub fn new(plan: Obtain<'a>) -> ObtainRun<'a>
        requires { IsNewObtain plan }
        ensures made { obtain_run_made result ≡ record { 0 = plan.entry.geometry.now; 1 = plan.entry.made } }
        ensures new { IsNewObtainRun result }
    {
        ObtainRun {
            run: Composite::new(plan),
        }
    }
}

impl<'a> Part for ObtainRun<'a> {
    type Outcome = Obtained;

    type Made = (Geometry, ObtainMade);

    ghost use Rattle.nm_obtain.specs.Obtaining.{IsObtained};
    ghost use Rattle.nm_obtain.specs.Runs.{obtain_run_made, IsNewObtainRun, MayObtainOf, IsObtainOf, AwaitsObtainRun};

    ghost made = { obtain_run_made };

    ghost is_new = { IsNewObtainRun };

    ghost may_begin = { MayObtainOf };

    ghost shape = { IsObtainOf };

    ghost leaves = { λ made g view outcome left. IsObtained made.1 g view outcome left };

    ghost awaits = { AwaitsObtainRun };

    ghost ended = { λ r g own outcome. Unit {0} };

    fn first(&mut self) -> Step<Obtained> {
        Step::Do(self.start())
    }

    fn after(&mut self, reply: Reply) -> Step<Obtained> {
        self.run.after(reply)
    }
}

impl<'a> Piece for ObtainRun<'a> {
    fn start(&mut self) -> Action {
        self.run.start()
    }
}
