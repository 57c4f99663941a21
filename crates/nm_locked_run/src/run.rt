//! The locked move that runs.

ghost use Rattle.std.specs.Prelude.{◌≡◌};
ghost use Rattle.nm_locked_run.specs.Runs.{locked_run_made, IsNewLockedRun};

use nm_base::Geometry;
use nm_compose::Composite;
use nm_event::{Action, Reply, Spent, Step};
use nm_locked::{ChooseMade, Locked, LockedOver, LockedPiece};
use nm_part::{Part, Piece};
use nm_transfer::TakenWords;

/// A locked move: all that is said of it is said by what runs it.
#[derive(Drop)]
pub struct LockedRun<'a> {
    run: Composite<Locked<'a>, LockedPiece<'a>>,
}

impl<'a> LockedRun<'a> {
    /// The move of this data; `taken` gives the room for the words that are taken.
    pub fn new(g: &'a Geometry, made: ChooseMade, taken: TakenWords) -> LockedRun<'a>
        ensures made { locked_run_made result ≡ record { 0 = g.now; 1 = made } }
        ensures new { IsNewLockedRun result }
    {
        let plan = Locked::new(g, made.page, made.count, made.spent, taken);
        LockedRun {
            run: Composite::new(plan),
        }
    }
}

impl<'a> Part for LockedRun<'a> {
    type Outcome = LockedOver;

    type Made = (Geometry, ChooseMade);

    ghost use Rattle.nm_locked_run.specs.Runs.{locked_run_made, IsNewLockedRun, MayLockedRun, IsLockedRunList, LockedRunLeaves, AwaitsLockedRun};

    ghost made = { locked_run_made };

    ghost is_new = { IsNewLockedRun };

    ghost may_begin = { MayLockedRun };

    ghost shape = { IsLockedRunList };

    ghost leaves = { LockedRunLeaves };

    ghost awaits = { AwaitsLockedRun };

    ghost ended = { λ r g own over. Unit {0} };

    fn first(&mut self) -> Step<LockedOver> {
        Step::Do(self.start())
    }

    fn after(&mut self, reply: Reply) -> Step<LockedOver> {
        self.run.after(reply)
    }
}

impl<'a> Piece for LockedRun<'a> {
    fn start(&mut self) -> Action {
        self.run.start()
    }
}
