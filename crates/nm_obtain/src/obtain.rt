//! A frame of a tier is sought inside an operation on a page.

ghost use Rattle.std.specs.Prelude.{◌≡◌};
ghost use Rattle.nm_base.specs.Ranges.{IsTier};
ghost use Rattle.nm_compose.specs.declared.or.Or.{Or};
ghost use Rattle.nm_pool.specs.Given.{pool_made};
ghost use Rattle.nm_pool.specs.declared.job.PoolJob.{PoolJob};
ghost use Rattle.nm_obtain.specs.Obtains.{reclaim_for};
ghost use Rattle.nm_obtain.specs.Searching.{obtain_parts, IsNewObtainPiece, IsNewObtain};
ghost use Rattle.nm_obtain.specs.declared.obtain.Stage.{Stage};

use nm_base::Geometry;
use nm_compose::{Next, Or, Plan};
use nm_pool::{PoolEnd, PoolTask};
use nm_reclaim::{ReclaimMade, Sweep, SweepMade, SweepRun, first_visited};

/// What the search for a frame is made with.
#[derive(Clone, Copy, Debug, PartialEq, Eq)]
pub struct ObtainMade {
    /// The backing page on which the actor has an operation. It keeps its shadow.
    pub page: u32,
    /// The tier of the frame.
    pub tier: u32,
}

/// How the search for a frame ends.
#[derive(Clone, Copy, Debug, PartialEq, Eq)]
pub enum Obtained {
    /// This frame of the tier is owned now.
    Got(u32),
    /// No frame of the tier was free, also after shadows were reclaimed. It is the number that was free then, which is 0.
    AtFloor(u32),
}

/// How far the search has come.
#[derive(Clone, Copy, Debug, PartialEq, Eq)]
pub(crate) enum Stage {
    /// It has not begun.
    New,
    /// 1. A frame is taken.
    Trying,
    /// 2. Shadows are reclaimed, from this page on.
    Reclaiming(u32),
    /// 3. A frame is taken again.
    TryingAgain,
}

/// A piece of the search: a task on the free frames, or the visits of Reclaim.
pub type ObtainPiece<'a> = Or<PoolTask, SweepRun<'a>>;

/// The search for a frame of a tier inside an operation on a page: the least free one is taken; where none is free, shadows
/// in the tier are reclaimed, and it is tried once more.
#[derive(Clone, Copy)]
pub struct Obtain<'a> {
    geometry: &'a Geometry,
    made: ObtainMade,
    stage: Stage,
}

impl<'a> Obtain<'a> {
    /// The search for a frame of `tier`, inside an operation on `page`. Condition: the tier exists. Where it begins the view
    /// holds no turn, and has no operation but on that page.
    pub fn new(geometry: &'a Geometry, page: u32, tier: u32) -> Obtain<'a>
        requires { IsTier geometry.now tier }
        ensures geometry { result.geometry.now ≡ geometry.now }
        ensures made { result.made ≡ record { page = page; tier = tier } }
        ensures new { IsNewObtain result }
    {
        Obtain {
            geometry,
            made: ObtainMade { page, tier },
            stage: Stage::New,
        }
    }

    /// Comes to a try to take a frame.
    fn take(&mut self, stage: Stage) -> ObtainPiece<'a>
        requires { IsTier self.old.geometry.now self.old.made.tier }
        ensures stage { self.new ≡ record self.old { stage = stage } }
        ensures made { obtain_parts result ≡ Or.This (pool_made self.old.geometry.now (PoolJob.Take self.old.made.tier 0)) }
        ensures new { IsNewObtainPiece result }
    {
        self.stage = stage;
        Or::This(PoolTask::take(self.geometry, self.made.tier, 0))
    }

    /// Comes to the visits of Reclaim, from this page on.
    fn reclaim(&mut self, first: u32) -> ObtainPiece<'a>
        ensures stage { self.new ≡ record self.old { stage = Stage.Reclaiming first } }
        ensures made { obtain_parts result ≡ Or.Other (record { 0 = self.old.geometry.now; 1 = record { asked = reclaim_for self.old.made; first = first } }) }
        ensures new { IsNewObtainPiece result }
    {
        self.stage = Stage::Reclaiming(first);
        let asked = reclaim_for(self.made);
        Or::Other(SweepRun::new(Sweep::new(self.geometry, SweepMade { asked, first })))
    }
}

/// What Reclaim is made with, inside the search.
fn reclaim_for(made: ObtainMade) -> ReclaimMade
    ensures { result ≡ reclaim_for made }
{
    ReclaimMade {
        tier: made.tier,
        want: 1,
        skip: Some(made.page),
    }
}

impl<'a> Plan<ObtainPiece<'a>> for Obtain<'a> {
    type Outcome = Obtained;

    type Made = (Geometry, ObtainMade);

    ghost use Rattle.nm_compose.specs.Stages.{IsPieceAt};
    ghost use Rattle.nm_obtain.specs.Obtains.{IsObtain};
    ghost use Rattle.nm_obtain.specs.Obtaining.{MayObtain, IsObtained};
    ghost use Rattle.nm_obtain.specs.Searching.{obtain_made, IsNewObtain, obtain_left, obtain_stages};

    ghost made = { λ s. obtain_made s.geometry.now s.made };

    ghost is_new = { IsNewObtain };

    ghost may_begin = { λ made g view. MayObtain made.0 made.1 g view };

    ghost shape = { λ made g own outcome. IsObtain made.1 g own outcome };

    ghost leaves = { λ made g view outcome left. IsObtained made.1 g view outcome left };

    ghost knows = { λ s. IsPieceAt obtain_stages (obtain_made s.geometry.now s.made) s.stage };

    ghost left = { λ s. obtain_left (obtain_made s.geometry.now s.made) s.stage };

    ghost ended = { λ s g outcome. Unit {0} };

    fn begin(&mut self) -> ObtainPiece<'a> {
        self.take(Stage::Trying)
    }

    fn go_on(
        &mut self,
        _piece: &ObtainPiece<'a>,
        end: Or<PoolEnd, u32>,
    ) -> Next<ObtainPiece<'a>, Obtained> {
        match self.stage {
            Stage::New => unreachable!(),
            Stage::Trying => {
                let Or::This(taken) = end else { unreachable!() };
                match taken {
                    PoolEnd::Got(frame) => Next::Over(Obtained::Got(frame)),
                    PoolEnd::AtFloor(_) => {
                        match first_visited(self.geometry, reclaim_for(self.made)) {
                            Some(first) => Next::Run(self.reclaim(first)),
                            None => Next::Run(self.take(Stage::TryingAgain)),
                        }
                    }
                    PoolEnd::Level(_) | PoolEnd::Back => unreachable!(),
                }
            }
            Stage::Reclaiming(_) => Next::Run(self.take(Stage::TryingAgain)),
            Stage::TryingAgain => {
                let Or::This(taken) = end else { unreachable!() };
                match taken {
                    PoolEnd::Got(frame) => Next::Over(Obtained::Got(frame)),
                    PoolEnd::AtFloor(free) => Next::Over(Obtained::AtFloor(free)),
                    PoolEnd::Level(_) | PoolEnd::Back => unreachable!(),
                }
            }
        }
    }
}
