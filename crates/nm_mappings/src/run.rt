//! The visits as one part, which tells of itself by names.

ghost use Rattle.std.specs.Prelude.{◌≡◌};
ghost use Rattle.nm_mappings.specs.Visiting.{IsNewVisits};
ghost use Rattle.nm_mappings.specs.Runs.{visits_made, IsNewVisitsRun};

use crate::visits::{VisitPlan, VisitsMade};
use nm_compose::{Act, Composite};
use nm_event::{Action, Reply, Step};
use nm_part::{Part, Piece};
use nm_vpages::VPageSet;

/// The Looks at, the Arms of, or the Raises of several virtual pages, which run.
#[derive(Drop)]
pub struct Visits {
    run: Composite<VisitPlan, Act>,
}

impl Visits {
    /// The visits of this plan.
    pub fn new(plan: VisitPlan) -> Visits
        requires { IsNewVisits plan }
        ensures made { visits_made result ≡ plan.made }
        ensures new { IsNewVisitsRun result }
    {
        Visits {
            run: Composite::new(plan),
        }
    }
}

impl Part for Visits {
    type Outcome = VPageSet;

    type Made = VisitsMade;

    ghost use Rattle.nm_mappings.specs.Visits.{IsVisits, MayVisit, IsVisited};
    ghost use Rattle.nm_mappings.specs.Runs.{visits_made, IsNewVisitsRun, AwaitsVisits};

    ghost made = { visits_made };

    ghost is_new = { IsNewVisitsRun };

    ghost may_begin = { MayVisit };

    ghost shape = { IsVisits };

    ghost leaves = { λ made g view found left. IsVisited made view found left };

    ghost awaits = { AwaitsVisits };

    ghost ended = { λ r g own found. Unit {0} };

    fn first(&mut self) -> Step<VPageSet> {
        Step::Do(self.start())
    }

    fn after(&mut self, reply: Reply) -> Step<VPageSet> {
        self.run.after(reply)
    }
}

impl Piece for Visits {
    fn start(&mut self) -> Action {
        self.run.start()
    }
}
