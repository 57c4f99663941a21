//! The question to the processors as one part, which tells of itself by names.

ghost use Rattle.std.specs.Prelude.{◌≡◌};
ghost use Rattle.nm_ended.specs.Runs.{ask_run_made, IsNewAskRun};

use crate::ask::AskEnded;
use nm_base::Geometry;
use nm_compose::{Act, Composite};
use nm_event::{Action, Reply, Step};
use nm_part::{Part, Piece};

/// A question that runs: all that is said of it is said by its plan.
#[derive(Drop)]
pub struct AskRun {
    run: Composite<AskEnded, Act>,
}

impl AskRun {
    /// The question to the processors of a geometry. Where it begins the view has no open operation.
    pub fn new(g: &Geometry) -> AskRun
        ensures made { ask_run_made result ≡ g.now.cpus }
        ensures new { IsNewAskRun result }
    {
        AskRun {
            run: Composite::new(AskEnded::new(g)),
        }
    }
}

impl Part for AskRun {
    type Outcome = bool;

    type Made = u32;

    ghost use Rattle.std.specs.Prelude.{◌≡◌};
    ghost use Rattle.nm_ended.specs.Asking.{IsAsking};
    ghost use Rattle.nm_ended.specs.Runs.{ask_run_made, MayAskRun, IsNewAskRun, AwaitsAskRun};

    ghost made = { ask_run_made };

    ghost is_new = { IsNewAskRun };

    ghost may_begin = { MayAskRun };

    ghost shape = { IsAsking };

    ghost leaves = { λ cpus g view all left. left ≡ view };

    ghost awaits = { AwaitsAskRun };

    ghost ended = { λ r g own all. Unit {0} };

    fn first(&mut self) -> Step<bool> {
        Step::Do(self.start())
    }

    fn after(&mut self, reply: Reply) -> Step<bool> {
        self.run.after(reply)
    }
}

impl Piece for AskRun {
    fn start(&mut self) -> Action {
        self.run.start()
    }
}
