//! The inspection as one part, which tells of itself by names.

ghost use Rattle.std.specs.Prelude.{◌≡◌, ◌≢◌, []};
ghost use Rattle.nm_vpages.specs.VPages.{vpages_of};
ghost use Rattle.nm_inspect.specs.Runs.{inspect_run_made, IsNewInspectRun};

use crate::inspect::{Inspect, InspectMade, InspectPiece, Inspected};
use nm_base::Geometry;
use nm_compose::Composite;
use nm_event::{Action, Reply, Step};
use nm_part::{Part, Piece};

/// An inspection that runs: all that is said of it is said by its plan.
#[derive(Drop)]
pub struct InspectRun<'a> {
    run: Composite<Inspect<'a>, InspectPiece<'a>>,
}

impl<'a> InspectRun<'a> {
    /// The inspection of a page by the demotion of a tier. Condition: the page has a virtual page (`VPageSet::of_page` tells).
    /// It may begin where the view has no operation on the page.
    pub fn new(g: &'a Geometry, page: u32, tier: u32) -> InspectRun<'a>
        requires { vpages_of g.now page ≢ [] }
        ensures made { inspect_run_made result ≡ record { 0 = g.now; 1 = record { page = page; tier = tier } } }
        ensures new { IsNewInspectRun result }
    {
        let plan = Inspect::new(g, page, tier);
        InspectRun {
            run: Composite::new(plan),
        }
    }
}

impl<'a> Part for InspectRun<'a> {
    type Outcome = Inspected;

    type Made = (Geometry, InspectMade);

    ghost use Rattle.std.specs.Prelude.{◌≡◌};
    ghost use Rattle.nm_inspect.specs.Inspecting.{IsInspection, MayInspect};
    ghost use Rattle.nm_inspect.specs.Runs.{inspect_run_made, IsNewInspectRun, AwaitsInspectRun};

    ghost made = { inspect_run_made };

    ghost is_new = { IsNewInspectRun };

    ghost may_begin = { MayInspect };

    ghost shape = { IsInspection };

    ghost leaves = { λ made g view outcome left. left ≡ view };

    ghost awaits = { AwaitsInspectRun };

    ghost ended = { λ r g own outcome. Unit {0} };

    fn first(&mut self) -> Step<Inspected> {
        Step::Do(self.start())
    }

    fn after(&mut self, reply: Reply) -> Step<Inspected> {
        self.run.after(reply)
    }
}

impl<'a> Piece for InspectRun<'a> {
    fn start(&mut self) -> Action {
        self.run.start()
    }
}
