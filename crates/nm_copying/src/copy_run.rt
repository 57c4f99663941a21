//! The copy of a page as one part, which tells of itself by names.

ghost use Rattle.std.specs.Prelude.{◌≡◌};
ghost use Rattle.nm_copying.specs.declared.copies.Stage.TheVariants.{New};
ghost use Rattle.nm_copying.specs.Runs.{copies_run_made, IsNewCopiesRun};

use crate::copies::{Copies, CopiesMade};
use nm_compose::{Act, Composite};
use nm_event::{Action, Reply, Step};
use nm_part::{Part, Piece};

/// A copy of a page that runs.
#[derive(Drop)]
pub struct CopiesRun {
    run: Composite<Copies, Act>,
}

impl CopiesRun {
    /// The copy of this plan.
    pub fn new(plan: Copies) -> CopiesRun
        requires { plan.stage ≡ New }
        ensures made { copies_run_made result ≡ plan.made }
        ensures new { IsNewCopiesRun result }
    {
        CopiesRun {
            run: Composite::new(plan),
        }
    }
}

impl Part for CopiesRun {
    type Outcome = ();

    type Made = CopiesMade;

    ghost use Rattle.nm_copying.specs.Copying.{MayCopies, IsCopying, IsCopied};
    ghost use Rattle.nm_copying.specs.Runs.{copies_run_made, IsNewCopiesRun, AwaitsCopiesRun};

    ghost made = { copies_run_made };

    ghost is_new = { IsNewCopiesRun };

    ghost may_begin = { MayCopies };

    ghost shape = { IsCopying };

    ghost leaves = { λ made g view end left. IsCopied made view left };

    ghost awaits = { AwaitsCopiesRun };

    ghost ended = { λ r g own end. Unit {0} };

    fn first(&mut self) -> Step<()> {
        Step::Do(self.start())
    }

    fn after(&mut self, reply: Reply) -> Step<()> {
        self.run.after(reply)
    }
}

impl Piece for CopiesRun {
    fn start(&mut self) -> Action {
        self.run.start()
    }
}
