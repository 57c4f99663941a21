//! The steps of a locked move before the page is taken out of the table.

ghost use Rattle.std.specs.Prelude.{◌≡◌, ◌≢◌, ◌+◌, ◌-◌, ◌<◌, ◌==◌, [], length};
ghost use Rattle.nm_base.specs.Geometry.{IsGeometry, tier_of};
ghost use Rattle.nm_base.specs.Ranges.{IsFrame};
ghost use Rattle.nm_base.specs.HomeWord.{IsHomeWord};
ghost use Rattle.nm_compose.specs.declared.or.Or.{Or};
ghost use Rattle.nm_pool.specs.Given.{pool_made};
ghost use Rattle.nm_pool.specs.Stages.{made_of, IsNewPool};
ghost use Rattle.nm_pool.specs.declared.job.PoolJob.{PoolJob};
ghost use Rattle.nm_mappings.specs.Visiting.{IsNewVisits};
ghost use Rattle.nm_prepare.specs.Preparing.{is_slow_home, tier_above, floor_above};
ghost use Rattle.nm_locked.specs.declared.choose.Stage.{Stage};
ghost use Rattle.nm_locked.specs.Stages.{choose_piece, move_piece_made, IsNewPieceInMove, MayGoInMove, MayTakeFromInMove, move_lock_stage, move_home_stage, move_looked_stage, move_arm_stage, move_told_in, move_found_in};

use nm_base::Geometry;
use nm_base::shadow_word::shadow_frame;
use nm_compose::{Act, Next, Or, Plan};
use nm_event::{Action, Cell, Reply, Spent};
use nm_mappings::{VisitPlan, Visits};
use nm_policy::Watermarks;
use nm_pool::{PoolEnd, PoolTask};
use nm_prepare::is_worn;
use nm_vpages::VPageSet;
use std::mem;

/// The mark of a page that is to be moved.
const PENDING: u64 = 2;
/// The mark of a page that is not to be moved.
const NO_MARK: u64 = 0;

/// What the steps are made with.
#[derive(Clone, Copy, Debug, PartialEq, Eq)]
pub struct ChooseMade {
    /// The backing page.
    pub page: u32,
    /// How many of its virtual pages are to have table words: at least 1.
    pub count: u32,
    /// How many bumps and raises the actor has made before.
    pub spent: Spent,
}

/// Why the page is unlocked again before it is taken out of the table.
#[derive(Clone, Copy, Debug, PartialEq, Eq)]
pub enum Early {
    /// So many frames of the next faster tier are free, which is no more than its watermark `min`.
    NoFrame(u32),
    /// The page has no home, or its home is in tier 0, or another number of its virtual pages have table words.
    Gone,
    /// The actor has made at least 2^56 - 1 bumps or at least 2^59 - 8,192 raises.
    Worn,
}

/// How the steps end.
#[derive(Debug, Drop)]
pub enum Chosen {
    /// The page's lock was held.
    Busy,
    /// The page is unlocked again.
    Closed(Early),
    /// The page can be taken out of the table.
    Ready {
        /// The frame of its home.
        home: u32,
        /// The frame that was taken.
        frame: u32,
        /// Its virtual pages that have table words.
        pages: VPageSet,
    },
}

/// How far the steps have come.
#[derive(Debug, Drop)]
pub(crate) enum Stage {
    /// They have not begun.
    New,
    /// 1. The page is locked.
    Locking,
    /// The mark is taken away, since the work ends so.
    Marking(Early),
    /// The page is unlocked, since the work ends so.
    Unlocking(Early),
    /// 3. The home is read.
    ReadingHome,
    /// 4. The virtual pages of the page are looked at.
    Looking {
        home: u32,
    },
    /// These virtual pages are armed, since the work ends so.
    Arming {
        early: Early,
        pages: VPageSet,
    },
    /// 5. A frame is taken.
    Taking {
        home: u32,
        pages: VPageSet,
    },
    /// 6. The shadow word of the home is read.
    ReadingShadow {
        home: u32,
        frame: u32,
        pages: VPageSet,
    },
    /// It is set to none.
    Unshading {
        home: u32,
        shadow: u64,
        frame: u32,
        pages: VPageSet,
    },
    /// The frame of the shadow is put back.
    PuttingBack {
        home: u32,
        shadow: u64,
        frame: u32,
        pages: VPageSet,
    },
}

/// A piece of the steps: an action, visits of the page's virtual pages, or a task on the free frames.
pub type ChoosePiece = Or<Act, Or<Visits, PoolTask>>;

/// How a piece ends.
pub type ChooseEnd = Or<Reply, Or<VPageSet, PoolEnd>>;

/// The steps of a locked move before the page is taken out of the table: the page is locked, its home read, its virtual pages
/// looked at, a frame of the next faster tier taken, and the shadow of the home given up.
#[derive(Drop)]
pub struct Choose<'a> {
    geometry: &'a Geometry,
    made: ChooseMade,
    stage: Stage,
}

impl<'a> Choose<'a> {
    /// The steps for a page of which so many virtual pages are to have table words. `spent` is what the actor has drawn.
    /// Where they begin the page is there, the view has no open operation and holds no turn.
    pub fn new(g: &'a Geometry, page: u32, count: u32, spent: Spent) -> Choose<'a>
        ensures geometry { result.geometry.now ≡ g.now }
        ensures made { result.made ≡ record { page = page; count = count; spent = spent } }
        ensures new { result.stage ≡ Stage.New }
    {
        Choose {
            geometry: g,
            made: ChooseMade { page, count, spent },
            stage: Stage::New,
        }
    }

    /// Whether a home word names a frame that is not in tier 0.
    fn is_slow_home(&self, word: u64) -> bool
        requires geometry { IsGeometry self.now.geometry.now }
        requires word { IsHomeWord self.now.geometry.now word }
        ensures { result ≡ is_slow_home self.now.geometry.now word }
    {
        word != 0 && self.geometry.tier_of((word - 1) as u32) != 0
    }

    /// The stage after the home word was read.
    fn move_home_stage(&self, word: u64) -> Stage
        requires geometry { IsGeometry self.now.geometry.now }
        requires word { IsHomeWord self.now.geometry.now word }
        ensures { result ≡ move_home_stage self.now.geometry.now self.now.made word }
    {
        if !self.is_slow_home(word) {
            return Stage::Marking(Early::Gone);
        }
        let home = (word - 1) as u32;
        if VPageSet::of_page(self.geometry, self.made.page).is_empty() {
            self.move_looked_stage(home, VPageSet::new())
        } else {
            Stage::Looking { home }
        }
    }

    /// The stage after the virtual pages were looked at, by those that have words.
    fn move_looked_stage(&self, home: u32, pages: VPageSet) -> Stage
        ensures { result ≡ move_looked_stage self.now.made home pages }
    {
        if pages.len() == self.made.count {
            Stage::Taking { home, pages }
        } else {
            move_arm_stage(Early::Gone, pages)
        }
    }

    /// The task that takes a frame of the tier above a home.
    fn take(&self, home: u32) -> PoolTask
        requires { MayTakeFromInMove self.now.geometry.now home }
        ensures made { made_of result ≡ pool_made self.now.geometry.now (PoolJob.Take (tier_above self.now.geometry.now home) (floor_above self.now.geometry.now home)) }
        ensures new { IsNewPool result }
    {
        let g = self.geometry;
        let tier = g.tier_of(home) - 1;
        let floor = Watermarks::of(g.tiers[tier as usize]).min;
        PoolTask::take(g, tier, floor)
    }

    /// The piece of a stage.
    fn piece_of(&self, stage: &Stage) -> ChoosePiece
        requires { MayGoInMove self.now.geometry.now self.now.made stage.now }
        ensures made { move_piece_made result ≡ choose_piece self.now.geometry.now self.now.made stage.now }
        ensures new { IsNewPieceInMove result }
    {
        let page = self.made.page;
        match stage {
            Stage::New | Stage::Locking => action(Action::Lock { page }),
            Stage::Marking(_) => action(Action::Mark {
                page,
                from: PENDING,
                to: NO_MARK,
            }),
            Stage::Unlocking(_) => action(Action::Unlock { page }),
            Stage::ReadingHome => action(Action::Read {
                page,
                cell: Cell::Home(page),
            }),
            Stage::Looking { .. } => visits(VisitPlan::looks(
                page,
                VPageSet::of_page(self.geometry, page),
            )),
            Stage::Arming { pages, .. } => visits(VisitPlan::arms(page, pages.copy())),
            Stage::Taking { home, .. } => task(self.take(*home)),
            Stage::ReadingShadow { home, .. } => action(Action::Read {
                page,
                cell: Cell::Shadow(*home),
            }),
            Stage::Unshading { home, .. } => action(Action::SetShadow {
                page,
                master: *home,
                shadow: None,
            }),
            Stage::PuttingBack { shadow, .. } => task(PoolTask::give_back(
                self.geometry,
                shadow_frame(*shadow),
            )),
        }
    }

    /// Comes to a stage, and gives its piece.
    fn go(&mut self, stage: Stage) -> ChoosePiece
        requires { MayGoInMove self.old.geometry.now self.old.made stage }
        ensures stage { self.new ≡ record self.old { stage = stage } }
        ensures made { move_piece_made result ≡ choose_piece self.old.geometry.now self.old.made stage }
        ensures new { IsNewPieceInMove result }
    {
        let piece = self.piece_of(&stage);
        self.stage = stage;
        piece
    }
}

/// The stage after the page was locked.
fn move_lock_stage(spent: Spent) -> Stage
    ensures { result ≡ move_lock_stage spent }
{
    if is_worn(spent) {
        Stage::Marking(Early::Worn)
    } else {
        Stage::ReadingHome
    }
}

/// The stage in which these virtual pages are armed, since the work ends so; the next one where there is none.
fn move_arm_stage(early: Early, pages: VPageSet) -> Stage
    ensures { result ≡ move_arm_stage early pages }
{
    if pages.is_empty() {
        Stage::Marking(early)
    } else {
        Stage::Arming { early, pages }
    }
}

/// The word that the reply carries with which a piece ended (0 where it carries none, of which nothing is claimed).
fn move_told_in(end: ChooseEnd) -> u64
    ensures { result ≡ move_told_in end }
{
    match end {
        Or::This(reply) => match reply {
            Reply::Done => 0,
            Reply::Word(word) | Reply::Busy(word) | Reply::Lost(word) => word,
        },
        Or::Other(_) => 0,
    }
}

/// The virtual pages that visits found (none where the piece was no visits, of which nothing is claimed).
fn move_found_in(end: ChooseEnd) -> VPageSet
    ensures { result ≡ move_found_in end }
{
    match end {
        Or::This(_) => VPageSet::new(),
        Or::Other(end) => match end {
            Or::This(found) => found,
            Or::Other(_) => VPageSet::new(),
        },
    }
}

/// The piece that makes an action.
fn action(action: Action) -> ChoosePiece
    ensures made { move_piece_made result ≡ Or.This action }
    ensures new { IsNewPieceInMove result }
{
    Or::This(Act::new(action))
}

/// The piece that visits virtual pages.
fn visits(plan: VisitPlan) -> ChoosePiece
    requires { IsNewVisits plan }
    ensures made { move_piece_made result ≡ Or.Other (Or.This plan.made) }
    ensures new { IsNewPieceInMove result }
{
    Or::Other(Or::This(Visits::new(plan)))
}

/// The piece that runs a task on the free frames.
fn task(task: PoolTask) -> ChoosePiece
    requires { IsNewPool task }
    ensures made { move_piece_made result ≡ Or.Other (Or.Other (made_of task)) }
    ensures new { IsNewPieceInMove result }
{
    Or::Other(Or::Other(task))
}

impl<'a> Plan<ChoosePiece> for Choose<'a> {
    type Outcome = Chosen;

    type Made = (Geometry, ChooseMade);

    ghost use Rattle.std.specs.Prelude.{◌≡◌};
    ghost use Rattle.nm_locked.specs.declared.choose.Stage.TheVariants.{New};
    ghost use Rattle.nm_prepare.specs.Placing.{IsPlanPlaced};
    ghost use Rattle.nm_locked.specs.Choosing.{IsChoosing};
    ghost use Rattle.nm_locked.specs.Chosen.{MayChoose, IsChosen};
    ghost use Rattle.nm_locked.specs.Stages.{choose_piece, choose_left, ChooseKnown};

    ghost made = { λ s. record { 0 = s.geometry.now; 1 = s.made } };

    ghost is_new = { λ s. s.stage ≡ New };

    ghost may_begin = { λ made g view. MayChoose made.0 made.1 g view };

    ghost shape = { λ made g own outcome. IsChoosing made.1 g own outcome };

    ghost leaves = { λ made g view outcome left. IsChosen made.1 g view outcome left };

    ghost knows = { λ s. IsPlanPlaced choose_piece ChooseKnown s.geometry.now s.made s.stage };

    ghost left = { λ s. choose_left s.made s.stage };

    ghost ended = { λ s g outcome. Unit {0} };

    fn begin(&mut self) -> ChoosePiece {
        self.go(Stage::Locking)
    }

    fn go_on(&mut self, _piece: &ChoosePiece, end: ChooseEnd) -> Next<ChoosePiece, Chosen> {
        match mem::replace(&mut self.stage, Stage::New) {
            Stage::New => unreachable!(),
            Stage::Locking => {
                let Or::This(reply) = end else { unreachable!() };
                match reply {
                    Reply::Done => Next::Run(self.go(move_lock_stage(self.made.spent))),
                    Reply::Busy(_) => Next::Over(Chosen::Busy),
                    Reply::Word(_) | Reply::Lost(_) => unreachable!(),
                }
            }
            Stage::Marking(early) => Next::Run(self.go(Stage::Unlocking(early))),
            Stage::Unlocking(early) => Next::Over(Chosen::Closed(early)),
            Stage::ReadingHome => {
                let stage = self.move_home_stage(move_told_in(end));
                Next::Run(self.go(stage))
            }
            Stage::Looking { home } => {
                let stage = self.move_looked_stage(home, move_found_in(end));
                Next::Run(self.go(stage))
            }
            Stage::Arming { early, .. } => Next::Run(self.go(Stage::Marking(early))),
            Stage::Taking { home, pages } => {
                let Or::Other(end) = end else { unreachable!() };
                let Or::Other(taken) = end else {
                    unreachable!()
                };
                match taken {
                    PoolEnd::Got(frame) => {
                        Next::Run(self.go(Stage::ReadingShadow { home, frame, pages }))
                    }
                    PoolEnd::AtFloor(n) => Next::Run(self.go(move_arm_stage(
                        Early::NoFrame(n),
                        pages,
                    ))),
                    PoolEnd::Level(_) | PoolEnd::Back => unreachable!(),
                }
            }
            Stage::ReadingShadow { home, frame, pages } => {
                let shadow = move_told_in(end);
                if shadow == 0 {
                    Next::Over(Chosen::Ready { home, frame, pages })
                } else {
                    Next::Run(self.go(Stage::Unshading {
                        home,
                        shadow,
                        frame,
                        pages,
                    }))
                }
            }
            Stage::Unshading {
                home,
                shadow,
                frame,
                pages,
            } => Next::Run(self.go(Stage::PuttingBack {
                home,
                shadow,
                frame,
                pages,
            })),
            Stage::PuttingBack {
                home,
                frame,
                pages,
                ..
            } => Next::Over(Chosen::Ready { home, frame, pages }),
        }
    }
}
