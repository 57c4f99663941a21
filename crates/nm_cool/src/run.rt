//! The cooling of a candidate as one part, which tells of itself by names.

ghost use Rattle.std.specs.Prelude.{◌≡◌};
ghost use Rattle.nm_cool.specs.Runs.{cool_run_made, IsNewCoolRun};

use crate::cool::{Cool, CoolPiece, Cooled};
use nm_base::Geometry;
use nm_compose::Composite;
use nm_event::{Action, Reply, Step};
use nm_part::{Part, Piece};

/// The cooling of a candidate that runs: all that is said of it is said by its plan.
#[derive(Drop)]
pub struct CoolRun<'a> {
    run: Composite<Cool<'a>, CoolPiece<'a>>,
}

impl<'a> CoolRun<'a> {
    /// The cooling of a page. Where it begins the page is there, has a virtual page, and may be locked.
    pub fn new(g: &'a Geometry, page: u32) -> CoolRun<'a>
        ensures made { cool_run_made result ≡ record { 0 = g.now; 1 = page } }
        ensures new { IsNewCoolRun result }
    {
        CoolRun {
            run: Composite::new(Cool::new(g, page)),
        }
    }
}

impl<'a> Part for CoolRun<'a> {
    type Outcome = Cooled;

    type Made = (Geometry, u32);

    ghost use Rattle.nm_cool.specs.Cooling.{IsCooling, MayCool, IsCooledLeft};
    ghost use Rattle.nm_cool.specs.Runs.{cool_run_made, IsNewCoolRun, AwaitsCoolRun};

    ghost made = { cool_run_made };

    ghost is_new = { IsNewCoolRun };

    ghost may_begin = { MayCool };

    ghost shape = { IsCooling };

    ghost leaves = { λ made g view end left. IsCooledLeft made view end left };

    ghost awaits = { AwaitsCoolRun };

    ghost ended = { λ r g own end. Unit {0} };

    fn first(&mut self) -> Step<Cooled> {
        Step::Do(self.start())
    }

    fn after(&mut self, reply: Reply) -> Step<Cooled> {
        self.run.after(reply)
    }
}

impl<'a> Piece for CoolRun<'a> {
    fn start(&mut self) -> Action {
        self.run.start()
    }
}
