//! The steps of a demotion before the page is taken out of the table, as a part.

ghost use Rattle.std.specs.Prelude.{◌≡◌};
ghost use Rattle.nm_demote.specs.SelectTasks.{select_of, IsNewSelection};

use crate::select::{DemoteMade, Select, SelectPiece, Selected};
use nm_base::Geometry;
use nm_compose::Composite;
use nm_event::{Action, Reply, Spent, Step};
use nm_part::{Part, Piece};

/// The steps of a demotion before the page is taken out of the table.
#[derive(Drop)]
pub struct SelectTask<'a> {
    run: Composite<Select<'a>, SelectPiece<'a>>,
}

impl<'a> SelectTask<'a> {
    /// The steps for a page. `spent` is what the actor has drawn. Where they begin the page is there, the view has no open
    /// operation and holds no turn.
    pub fn new(g: &'a Geometry, page: u32, spent: Spent) -> SelectTask<'a>
        ensures made { select_of result ≡ record { 0 = g.now; 1 = record { page = page; spent = spent } } }
        ensures new { IsNewSelection result }
    {
        SelectTask {
            run: Composite::new(Select::new(g, page, spent)),
        }
    }
}

impl<'a> Part for SelectTask<'a> {
    type Outcome = Selected;

    type Made = (Geometry, DemoteMade);

    ghost use Rattle.nm_part.specs.Parts.{NothingTold};
    ghost use Rattle.nm_demote.specs.Selecting.{IsSelecting};
    ghost use Rattle.nm_demote.specs.Selections.{MayDemote, IsSelected};
    ghost use Rattle.nm_demote.specs.SelectTasks.{select_of, IsNewSelection, AwaitsSelection};

    ghost made = { select_of };

    ghost is_new = { IsNewSelection };

    ghost may_begin = { λ made g view. MayDemote made.0 made.1 g view };

    ghost shape = { λ made g own outcome. IsSelecting made.1 g own outcome };

    ghost leaves = { λ made g view outcome left. IsSelected made.1 g view outcome left };

    ghost awaits = { AwaitsSelection };

    ghost ended = { λ t. NothingTold };

    fn first(&mut self) -> Step<Selected> {
        self.run.first()
    }

    fn after(&mut self, reply: Reply) -> Step<Selected> {
        self.run.after(reply)
    }
}

impl<'a> Piece for SelectTask<'a> {
    fn start(&mut self) -> Action {
        self.run.start()
    }
}
