//! Reclaim as a part of an actor's work.

ghost use Rattle.std.specs.Prelude.{◌≡◌};
ghost use Rattle.nm_reclaim.specs.Tasks.{first_visited, task_made, IsNewWork, freed_by};

use crate::run::SweepRun;
use crate::sweep::{ReclaimMade, Sweep, SweepMade, next_visited};
use nm_base::Geometry;
use nm_event::{Reply, Step};
use nm_part::{Part, Piece};

/// What a task does.
#[derive(Drop)]
pub(crate) enum Work<'a> {
    /// There is no page to visit.
    Nothing,
    /// It visits pages.
    Visits(SweepRun<'a>),
}

/// Reclaim: each backing page but one is locked in turn, and where it has a shadow in the tier, the shadow is discarded and
/// its frame put back, until ten times `want` are freed or the last page was visited. A page that is busy is passed over.
/// In the fastest tier there are no shadows, so it is over at once there.
#[derive(Drop)]
pub struct ReclaimTask<'a> {
    geometry: &'a Geometry,
    asked: ReclaimMade,
    work: Work<'a>,
}

impl<'a> ReclaimTask<'a> {
    /// A task that has nothing to do yet.
    pub fn new(geometry: &'a Geometry) -> ReclaimTask<'a>
        ensures geometry { result.geometry.now ≡ geometry.now }
    {
        ReclaimTask {
            geometry,
            asked: ReclaimMade {
                tier: 0,
                want: 0,
                skip: None,
            },
            work: Work::Nothing,
        }
    }

    /// Begins a piece of work: shadows in `tier` are discarded, until ten times `want` are freed, and the page `skip` is not
    /// visited. The earlier work is over. Where it begins the tier exists, the view holds no turn, and has no operation but on
    /// the page that is skipped.
    pub fn begin(&mut self, tier: u32, want: u32, skip: Option<u32>)
        ensures made { task_made self.new ≡ (self.old.geometry.now, record { tier = tier; want = want; skip = skip }) }
        ensures new { IsNewWork (task_made self.new) self.new.work }
    {
        self.asked = ReclaimMade { tier, want, skip };
        self.work = match first_visited(self.geometry, self.asked) {
            Some(first) => Work::Visits(SweepRun::new(Sweep::new(
                self.geometry,
                SweepMade {
                    asked: self.asked,
                    first,
                },
            ))),
            None => Work::Nothing,
        };
    }

    /// How many shadows were freed since the work began.
    pub fn freed(&self) -> u32
        ensures { result ≡ freed_by self.now.work }
    {
        match &self.work {
            Work::Nothing => 0,
            Work::Visits(work) => work.freed(),
        }
    }
}

/// The first page that Reclaim visits. None where it is over at once: in the fastest tier, where none is to be freed, and
/// where there is no page but the skipped one.
pub fn first_visited(geometry: &Geometry, made: ReclaimMade) -> Option<u32>
    ensures { result ≡ first_visited geometry.now made }
{
    if made.tier == 0 {
        None
    } else {
        next_visited(geometry, made, 0, 0)
    }
}

impl<'a> Part for ReclaimTask<'a> {
    type Outcome = u32;

    type Made = (Geometry, ReclaimMade);

    ghost use Rattle.nm_reclaim.specs.Reclaims.{IsReclaim};
    ghost use Rattle.nm_reclaim.specs.Swept.{MayReclaim, IsSwept};
    ghost use Rattle.std.specs.Prelude.{◌≡◌};
    ghost use Rattle.nm_reclaim.specs.Tasks.{task_made, IsNewWork, MayTask, AwaitsWork, freed_by};

    ghost made = { task_made };

    ghost is_new = { λ task. IsNewWork (task_made task) task.work };

    ghost may_begin = { MayTask };

    ghost shape = { λ made g own freed. IsReclaim g made.1 own freed };

    ghost leaves = { λ made g view freed left. IsSwept made.1.skip view left };

    ghost awaits = { λ task. AwaitsWork (task_made task) task.work };

    ghost ended = { λ task g own freed. freed_by task.work ≡ freed };

    fn first(&mut self) -> Step<u32> {
        match &mut self.work {
            Work::Nothing => Step::Over(0),
            Work::Visits(work) => Step::Do(work.start()),
        }
    }

    fn after(&mut self, reply: Reply) -> Step<u32> {
        match &mut self.work {
            Work::Nothing => unreachable!(),
            Work::Visits(work) => work.after(reply),
        }
    }
}
