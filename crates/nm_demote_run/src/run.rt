//! The demotion that runs.

ghost use Rattle.std.specs.Prelude.{◌≡◌};
ghost use Rattle.nm_demote_run.specs.Runs.{demote_run_made, IsNewDemoteRun};

use nm_base::Geometry;
use nm_compose::Composite;
use nm_demote::{Demote, DemoteMade, DemoteOver, DemotePiece};
use nm_event::{Action, Reply, Spent, Step};
use nm_part::{Part, Piece};
use nm_transfer::TakenWords;

/// A demotion: all that is said of it is said by what runs it.
#[derive(Drop)]
pub struct DemoteRun<'a> {
    run: Composite<Demote<'a>, DemotePiece<'a>>,
}

impl<'a> DemoteRun<'a> {
    /// The demotion of a page, by an actor that has drawn so much; `taken` gives the room for the words that are taken.
    pub fn new(g: &'a Geometry, page: u32, spent: Spent, taken: TakenWords) -> DemoteRun<'a>
        ensures made { demote_run_made result ≡ record { 0 = g.now; 1 = record { page = page; spent = spent } } }
        ensures new { IsNewDemoteRun result }
    {
        let plan = Demote::new(g, page, spent, taken);
        DemoteRun {
            run: Composite::new(plan),
        }
    }
}

impl<'a> Part for DemoteRun<'a> {
    type Outcome = DemoteOver;

    type Made = (Geometry, DemoteMade);

    ghost use Rattle.nm_demote.specs.Selections.{MayDemote};
    ghost use Rattle.nm_demote.specs.Demotions.{IsDemotion};
    ghost use Rattle.nm_demote.specs.Leaving.{IsDemoteLeft};
    ghost use Rattle.nm_demote_run.specs.Runs.{demote_run_made, IsNewDemoteRun, AwaitsDemotion};

    ghost made = { demote_run_made };

    ghost is_new = { IsNewDemoteRun };

    ghost may_begin = { λ made g view. MayDemote made.0 made.1 g view };

    ghost shape = { λ made g own over. IsDemotion made.1 g own over.end };

    ghost leaves = { λ made g view over left. IsDemoteLeft made.1 view over.end left };

    ghost awaits = { AwaitsDemotion };

    ghost ended = { λ r g own over. Unit {0} };

    fn first(&mut self) -> Step<DemoteOver> {
        Step::Do(self.start())
    }

    fn after(&mut self, reply: Reply) -> Step<DemoteOver> {
        self.run.after(reply)
    }
}

impl<'a> Piece for DemoteRun<'a> {
    fn start(&mut self) -> Action {
        self.run.start()
    }
}
