//! The unmapping of one virtual page as one part, which tells of itself by names.

ghost use Rattle.std.specs.Prelude.{◌≡◌};
ghost use Rattle.nm_commit.specs.declared.unmap.UnmapStage.TheVariants.{Idle};
ghost use Rattle.nm_commit.specs.Runs.{unmap_run_made, IsNewUnmapRun};

use crate::unmap::{UnmapMade, UnmapOne};
use nm_compose::{Act, Composite};
use nm_event::{Action, Reply, Step};
use nm_part::{Part, Piece};

/// An unmapping that runs.
#[derive(Drop)]
pub struct UnmapRun {
    run: Composite<UnmapOne, Act>,
}

impl UnmapRun {
    /// The unmapping of this plan.
    pub fn new(plan: UnmapOne) -> UnmapRun
        requires { plan.stage ≡ Idle }
        ensures made { unmap_run_made result ≡ plan.made }
        ensures new { IsNewUnmapRun result }
    {
        UnmapRun {
            run: Composite::new(plan),
        }
    }
}

impl Part for UnmapRun {
    type Outcome = u64;

    type Made = UnmapMade;

    ghost use Rattle.nm_commit.specs.Unmapping.{MayUnmapping, UnmapsOne, IsUnmappedOne};
    ghost use Rattle.nm_commit.specs.Runs.{unmap_run_made, IsNewUnmapRun, AwaitsUnmapRun};

    ghost made = { unmap_run_made };

    ghost is_new = { IsNewUnmapRun };

    ghost may_begin = { MayUnmapping };

    ghost shape = { UnmapsOne };

    ghost leaves = { IsUnmappedOne };

    ghost awaits = { AwaitsUnmapRun };

    ghost ended = { λ r g own word. Unit {0} };

    fn first(&mut self) -> Step<u64> {
        Step::Do(self.start())
    }

    fn after(&mut self, reply: Reply) -> Step<u64> {
        self.run.after(reply)
    }
}

impl Piece for UnmapRun {
    fn start(&mut self) -> Action {
        self.run.start()
    }
}
