//! Looks and Softens as parts, which tell of themselves by names.

ghost use Rattle.std.specs.Prelude.{◌≡◌};
ghost use Rattle.nm_looks.specs.Looking.{looks_data, IsNewLooks};
ghost use Rattle.nm_looks.specs.Softening.{IsNewSoftens};
ghost use Rattle.nm_looks.specs.Parts.{looks_run_made, IsNewLooksRun, softens_run_made, IsNewSoftensRun};

use crate::looks::{Looks, LooksMade};
use crate::seen::Seen;
use crate::softens::Softens;
use nm_base::Geometry;
use nm_compose::{Act, Composite};
use nm_event::{Action, Reply, Step};
use nm_part::{Part, Piece};
use nm_vpages::VPageSet;

/// Looks that run: all that is said of them is said by their plan.
#[derive(Drop)]
pub struct LooksRun<'a> {
    run: Composite<Looks<'a>, Act>,
}

impl<'a> LooksRun<'a> {
    /// The Looks of this plan. Condition: it has not begun.
    pub fn new(plan: Looks<'a>) -> LooksRun<'a>
        requires { IsNewLooks plan }
        ensures made { looks_run_made result ≡ looks_data plan.entry }
        ensures new { IsNewLooksRun result }
    {
        LooksRun {
            run: Composite::new(plan),
        }
    }
}

impl<'a> Part for LooksRun<'a> {
    type Outcome = Seen;

    type Made = (Geometry, LooksMade);

    ghost use Rattle.nm_looks.specs.Seeing.{IsLooks, MayLooks, HasLooked};
    ghost use Rattle.nm_looks.specs.Parts.{looks_run_made, IsNewLooksRun, AwaitsLooksRun};

    ghost made = { looks_run_made };

    ghost is_new = { IsNewLooksRun };

    ghost may_begin = { MayLooks };

    ghost shape = { IsLooks };

    ghost leaves = { λ made g view seen left. HasLooked made view seen left };

    ghost awaits = { AwaitsLooksRun };

    ghost ended = { λ r g own seen. Unit {0} };

    fn first(&mut self) -> Step<Seen> {
        Step::Do(self.start())
    }

    fn after(&mut self, reply: Reply) -> Step<Seen> {
        self.run.after(reply)
    }
}

impl<'a> Piece for LooksRun<'a> {
    fn start(&mut self) -> Action {
        self.run.start()
    }
}

/// Softens that run: all that is said of them is said by their plan.
#[derive(Drop)]
pub struct SoftensRun {
    run: Composite<Softens, Act>,
}

impl SoftensRun {
    /// The Softens of this plan. Condition: it has not begun.
    pub fn new(plan: Softens) -> SoftensRun
        requires { IsNewSoftens plan }
        ensures made { softens_run_made result ≡ plan.pages }
        ensures new { IsNewSoftensRun result }
    {
        SoftensRun {
            run: Composite::new(plan),
        }
    }
}

impl Part for SoftensRun {
    type Outcome = ();

    type Made = VPageSet;

    ghost use Rattle.std.specs.Prelude.{◌≡◌};
    ghost use Rattle.nm_looks.specs.Softening.{IsSoftens, MaySoften};
    ghost use Rattle.nm_looks.specs.Parts.{softens_run_made, IsNewSoftensRun, AwaitsSoftensRun};

    ghost made = { softens_run_made };

    ghost is_new = { IsNewSoftensRun };

    ghost may_begin = { MaySoften };

    ghost shape = { IsSoftens };

    ghost leaves = { λ pages g view end left. left ≡ view };

    ghost awaits = { AwaitsSoftensRun };

    ghost ended = { λ r g own end. Unit {0} };

    fn first(&mut self) -> Step<()> {
        Step::Do(self.start())
    }

    fn after(&mut self, reply: Reply) -> Step<()> {
        self.run.after(reply)
    }
}

impl Piece for SoftensRun {
    fn start(&mut self) -> Action {
        self.run.start()
    }
}
