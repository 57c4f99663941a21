//! The steps of a transaction up to its first flush.

ghost use Rattle.std.specs.Prelude.{◌≡◌, ◌≢◌, ◌+◌, ◌-◌, ◌<◌, ◌≤◌, ◌^◌, ◌↔◌, IsTrue, length};
ghost use Rattle.nm_base.specs.Geometry.{IsGeometry, frame_count, tier_of};
ghost use Rattle.nm_base.specs.Ranges.{IsFrame};
ghost use Rattle.nm_base.specs.HomeWord.{IsHomeWord};
ghost use Rattle.nm_pool.specs.Given.{pool_made};
ghost use Rattle.nm_pool.specs.Stages.{made_of, IsNewPool};
ghost use Rattle.nm_pool.specs.declared.job.PoolJob.{PoolJob};
ghost use Rattle.nm_mappings.specs.Visiting.{IsNewVisits};
ghost use Rattle.nm_compose.specs.declared.or.Or.{Or};
ghost use Rattle.nm_prepare.specs.declared.prepare.Stage.{Stage};
ghost use Rattle.nm_prepare.specs.Preparing.{is_slow_home, is_in_last, tier_above, floor_above};
ghost use Rattle.nm_prepare.specs.Stages.{prepare_piece, piece_made, IsNewPiece, MayGo, MayTakeFrom, lock_stage, looked_stage, home_stage, got_stage, told_in, prepare_found};

use crate::worn::is_worn;
use nm_base::Geometry;
use nm_base::shadow_word::shadow_frame;
use nm_compose::{Act, Next, Or, Plan};
use nm_event::{Action, Cell, Reply, Spent};
use nm_mappings::{VisitPlan, Visits};
use nm_policy::Watermarks;
use nm_pool::{PoolEnd, PoolTask};
use nm_vpages::VPageSet;

/// The mark of a page that is to be moved.
const PENDING: u64 = 2;
/// The mark of a page that is not to be moved.
const NO_MARK: u64 = 0;

/// What the steps are made with.
#[derive(Clone, Copy, Debug, PartialEq, Eq)]
pub struct PrepareMade {
    /// The backing page.
    pub page: u32,
    /// The virtual page that alone is to have a table word.
    pub vpage: u32,
    /// How many bumps and raises the actor has made before.
    pub spent: Spent,
}

/// Why the page is unlocked again before the first flush.
#[derive(Clone, Copy, Debug, PartialEq, Eq)]
pub enum Early {
    /// So many frames of the next faster tier are free, which is no more than its watermark `min`.
    NoFrame(u32),
    /// The page has no home, or its home is in tier 0, or not the one virtual page alone has a table word.
    Gone,
    /// The actor has made at least 2^56 - 1 bumps or at least 2^59 - 8,192 raises.
    Worn,
}

/// How the steps end.
#[derive(Clone, Copy, Debug, Default, PartialEq, Eq)]
pub enum Prepared {
    /// The page's lock was held.
    #[default]
    Busy,
    /// The page is unlocked again.
    Closed(Early),
    /// The page is ready for the first flush.
    Ready {
        /// The frame of its home.
        home: u32,
        /// The frame that was taken.
        frame: u32,
    },
}

/// How far the steps have come.
#[derive(Debug, Drop)]
pub(crate) enum Stage {
    /// They have not begun.
    New,
    /// 1. The page is locked.
    Locking,
    /// The mark is taken away, since the work ends so.
    Marking(Early),
    /// The page is unlocked, since the work ends so.
    Unlocking(Early),
    /// 3. The home is read.
    ReadingHome,
    /// 4. The virtual pages of the page are looked at.
    Looking(u32),
    /// These virtual pages are armed, since the work ends.
    Arming(VPageSet),
    /// 5. The shadow word of the home is read.
    ReadingShadow(u32),
    /// A frame is taken.
    Taking { home: u32, shadow: u64 },
    /// The virtual page is armed, since so many frames are free.
    ArmingOne(u32),
    /// The shadow word of the home is set to none.
    Unshading { home: u32, shadow: u64, frame: u32 },
    /// The frame of the shadow is put back.
    PuttingBack { home: u32, shadow: u64, frame: u32 },
    /// 6. The dirty bit is cleared.
    Clearing { home: u32, frame: u32 },
    /// The virtual page is raised.
    Raising { home: u32, frame: u32 },
}

/// A piece of the steps: an action, visits of the page's virtual pages, or a task on the free frames.
pub type PreparePiece = Or<Act, Or<Visits, PoolTask>>;

/// The steps of a transaction up to its first flush: the page is locked, its home read, its virtual pages looked at, a frame
/// of the next faster tier taken, the shadow of the home given up, and the dirty bit of the one table word cleared.
#[derive(Drop)]
pub struct Prepare<'a> {
    geometry: &'a Geometry,
    made: PrepareMade,
    stage: Stage,
}

impl<'a> Prepare<'a> {
    /// The steps for a page and the virtual page that alone is to have a table word. `spent` is what the actor has drawn.
    /// Where they begin the page is there and may be locked, and the view holds no turn.
    pub fn new(g: &'a Geometry, page: u32, vpage: u32, spent: Spent) -> Prepare<'a>
        ensures geometry { result.geometry.now ≡ g.now }
        ensures made { result.made ≡ record { page = page; vpage = vpage; spent = spent } }
        ensures new { result.stage ≡ Stage.New }
    {
        Prepare {
            geometry: g,
            made: PrepareMade { page, vpage, spent },
            stage: Stage::New,
        }
    }

    /// Whether a home word names a frame that is not in tier 0.
    fn is_slow_home(&self, word: u64) -> bool
        requires geometry { IsGeometry self.now.geometry.now }
        requires word { IsHomeWord self.now.geometry.now word }
        ensures { result ≡ is_slow_home self.now.geometry.now word }
    {
        word != 0 && self.geometry.tier_of((word - 1) as u32) != 0
    }

    /// Whether a frame is in the last tier.
    fn is_in_last(&self, frame: u32) -> bool
        requires { IsFrame self.now.geometry.now frame }
        ensures { result ≡ is_in_last self.now.geometry.now frame }
    {
        let g = self.geometry;
        g.tier_of(frame) as usize + 1 == g.tiers.len()
    }

    /// The stage after the virtual pages were looked at, by those that have words.
    fn looked_stage(&self, home: u32, found: VPageSet) -> Stage
        requires { IsFrame self.now.geometry.now home }
        ensures { result ≡ looked_stage self.now.geometry.now self.now.made home found }
    {
        if found.is_only(self.made.vpage) {
            if self.is_in_last(home) {
                Stage::Taking { home, shadow: 0 }
            } else {
                Stage::ReadingShadow(home)
            }
        } else if found.is_empty() {
            Stage::Marking(Early::Gone)
        } else {
            Stage::Arming(found)
        }
    }

    /// The stage after the home word was read.
    fn home_stage(&self, word: u64) -> Stage
        requires geometry { IsGeometry self.now.geometry.now }
        requires word { IsHomeWord self.now.geometry.now word }
        ensures { result ≡ home_stage self.now.geometry.now self.now.made word }
    {
        if !self.is_slow_home(word) {
            return Stage::Marking(Early::Gone);
        }
        let home = (word - 1) as u32;
        if VPageSet::of_page(self.geometry, self.made.page).is_empty() {
            self.looked_stage(home, VPageSet::new())
        } else {
            Stage::Looking(home)
        }
    }

    /// The task that takes a frame of the tier above a home.
    fn take(&self, home: u32) -> PoolTask
        requires { MayTakeFrom self.now.geometry.now home }
        ensures made { made_of result ≡ pool_made self.now.geometry.now (PoolJob.Take (tier_above self.now.geometry.now home) (floor_above self.now.geometry.now home)) }
        ensures new { IsNewPool result }
    {
        let g = self.geometry;
        let tier = g.tier_of(home) - 1;
        let floor = Watermarks::of(g.tiers[tier as usize]).min;
        PoolTask::take(g, tier, floor)
    }

    /// The piece of a stage.
    fn piece_of(&self, stage: &Stage) -> PreparePiece
        requires { MayGo self.now.geometry.now self.now.made stage.now }
        ensures made { piece_made result ≡ prepare_piece self.now.geometry.now self.now.made stage.now }
        ensures new { IsNewPiece result }
    {
        let PrepareMade { page, vpage, .. } = self.made;
        match stage {
            Stage::New | Stage::Locking => action(Action::Lock { page }),
            Stage::Marking(_) => action(Action::Mark {
                page,
                from: PENDING,
                to: NO_MARK,
            }),
            Stage::Unlocking(_) => action(Action::Unlock { page }),
            Stage::ReadingHome => action(Action::Read {
                page,
                cell: Cell::Home(page),
            }),
            Stage::Looking(_) => visits(VisitPlan::looks(
                page,
                VPageSet::of_page(self.geometry, page),
            )),
            Stage::Arming(found) => visits(VisitPlan::arms(page, found.copy())),
            Stage::ReadingShadow(home) => action(Action::Read {
                page,
                cell: Cell::Shadow(*home),
            }),
            Stage::Taking { home, .. } => task(self.take(*home)),
            Stage::ArmingOne(_) => action(Action::Arm { vpage }),
            Stage::Unshading { home, .. } => action(Action::SetShadow {
                page,
                master: *home,
                shadow: None,
            }),
            Stage::PuttingBack { shadow, .. } => task(PoolTask::give_back(
                self.geometry,
                shadow_frame(*shadow),
            )),
            Stage::Clearing { .. } => action(Action::ClearDirty { vpage }),
            Stage::Raising { .. } => action(Action::Raise { vpage }),
        }
    }

    /// Comes to a stage, and gives its piece.
    fn go(&mut self, stage: Stage) -> PreparePiece
        requires { MayGo self.old.geometry.now self.old.made stage }
        ensures stage { self.new ≡ record self.old { stage = stage } }
        ensures made { piece_made result ≡ prepare_piece self.old.geometry.now self.old.made stage }
        ensures new { IsNewPiece result }
    {
        let piece = self.piece_of(&stage);
        self.stage = stage;
        piece
    }
}

/// The stage after the page was locked.
fn lock_stage(spent: Spent) -> Stage
    ensures { result ≡ lock_stage spent }
{
    if is_worn(spent) {
        Stage::Marking(Early::Worn)
    } else {
        Stage::ReadingHome
    }
}

/// The stage after a frame was taken.
fn got_stage(home: u32, shadow: u64, frame: u32) -> Stage
    ensures { result ≡ got_stage home shadow frame }
{
    if shadow == 0 {
        Stage::Clearing { home, frame }
    } else {
        Stage::Unshading {
            home,
            shadow,
            frame,
        }
    }
}

/// The word that the reply carries with which a piece ended (0 where it carries none, of which nothing is claimed).
fn told_in(end: Or<Reply, Or<VPageSet, PoolEnd>>) -> u64
    ensures { result ≡ told_in end }
{
    match end {
        Or::This(reply) => match reply {
            Reply::Done => 0,
            Reply::Word(word) | Reply::Busy(word) | Reply::Lost(word) => word,
        },
        Or::Other(_) => 0,
    }
}

/// The virtual pages that visits found (none where the piece was no visits, of which nothing is claimed).
fn prepare_found(end: Or<Reply, Or<VPageSet, PoolEnd>>) -> VPageSet
    ensures { result ≡ prepare_found end }
{
    match end {
        Or::This(_) => VPageSet::new(),
        Or::Other(end) => match end {
            Or::This(found) => found,
            Or::Other(_) => VPageSet::new(),
        },
    }
}

/// The piece that makes an action.
fn action(action: Action) -> PreparePiece
    ensures made { piece_made result ≡ Or.This action }
    ensures new { IsNewPiece result }
{
    Or::This(Act::new(action))
}

/// The piece that visits virtual pages.
fn visits(plan: VisitPlan) -> PreparePiece
    requires { IsNewVisits plan }
    ensures made { piece_made result ≡ Or.Other (Or.This plan.made) }
    ensures new { IsNewPiece result }
{
    Or::Other(Or::This(Visits::new(plan)))
}

/// The piece that runs a task on the free frames.
fn task(task: PoolTask) -> PreparePiece
    requires { IsNewPool task }
    ensures made { piece_made result ≡ Or.Other (Or.Other (made_of task)) }
    ensures new { IsNewPiece result }
{
    Or::Other(Or::Other(task))
}

impl<'a> Plan<PreparePiece> for Prepare<'a> {
    type Outcome = Prepared;

    type Made = (Geometry, PrepareMade);

    ghost use Rattle.std.specs.Prelude.{◌≡◌};
    ghost use Rattle.nm_prepare.specs.declared.prepare.Stage.TheVariants.{New};
    ghost use Rattle.nm_prepare.specs.Placing.{IsPlanPlaced};
    ghost use Rattle.nm_prepare.specs.Preparing.{IsPrepare};
    ghost use Rattle.nm_prepare.specs.Ready.{MayPrepare, IsPrepared};
    ghost use Rattle.nm_prepare.specs.Stages.{prepare_piece, prepare_left, PrepareKnown};

    ghost made = { λ s. record { 0 = s.geometry.now; 1 = s.made } };

    ghost is_new = { λ s. s.stage ≡ New };

    ghost may_begin = { λ made g view. MayPrepare made.0 made.1 g view };

    ghost shape = { λ made g own outcome. IsPrepare made.1 g own outcome };

    ghost leaves = { λ made g view outcome left. IsPrepared made.1 g view outcome left };

    ghost knows = { λ s. IsPlanPlaced prepare_piece PrepareKnown s.geometry.now s.made s.stage };

    ghost left = { λ s. prepare_left s.made s.stage };

    ghost ended = { λ s g outcome. Unit {0} };

    fn begin(&mut self) -> PreparePiece {
        self.go(Stage::Locking)
    }

    fn go_on(
        &mut self,
        _piece: &PreparePiece,
        end: Or<Reply, Or<VPageSet, PoolEnd>>,
    ) -> Next<PreparePiece, Prepared> {
        match self.stage {
            Stage::New => unreachable!(),
            Stage::Locking => {
                let Or::This(reply) = end else { unreachable!() };
                match reply {
                    Reply::Done => Next::Run(self.go(lock_stage(self.made.spent))),
                    Reply::Busy(_) => Next::Over(Prepared::Busy),
                    Reply::Word(_) | Reply::Lost(_) => unreachable!(),
                }
            }
            Stage::Marking(early) => Next::Run(self.go(Stage::Unlocking(early))),
            Stage::Unlocking(early) => Next::Over(Prepared::Closed(early)),
            Stage::ReadingHome => {
                let stage = self.home_stage(told_in(end));
                Next::Run(self.go(stage))
            }
            Stage::Looking(home) => {
                let stage = self.looked_stage(home, prepare_found(end));
                Next::Run(self.go(stage))
            }
            Stage::Arming(_) => Next::Run(self.go(Stage::Marking(Early::Gone))),
            Stage::ReadingShadow(home) => {
                let shadow = told_in(end);
                Next::Run(self.go(Stage::Taking { home, shadow }))
            }
            Stage::Taking { home, shadow } => {
                let Or::Other(end) = end else { unreachable!() };
                let Or::Other(taken) = end else {
                    unreachable!()
                };
                match taken {
                    PoolEnd::Got(frame) => Next::Run(self.go(got_stage(home, shadow, frame))),
                    PoolEnd::AtFloor(n) => Next::Run(self.go(Stage::ArmingOne(n))),
                    PoolEnd::Level(_) | PoolEnd::Back => unreachable!(),
                }
            }
            Stage::ArmingOne(n) => Next::Run(self.go(Stage::Marking(Early::NoFrame(n)))),
            Stage::Unshading {
                home,
                shadow,
                frame,
            } => Next::Run(self.go(Stage::PuttingBack {
                home,
                shadow,
                frame,
            })),
            Stage::PuttingBack { home, frame, .. } => {
                Next::Run(self.go(Stage::Clearing { home, frame }))
            }
            Stage::Clearing { home, frame } => Next::Run(self.go(Stage::Raising { home, frame })),
            Stage::Raising { home, frame } => Next::Over(Prepared::Ready { home, frame }),
        }
    }
}
