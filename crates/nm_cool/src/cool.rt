//! A candidate that is not hot is made none, and its next access is made to raise a hint fault again.

ghost use Rattle.std.specs.Prelude.{◌≡◌, ◌≢◌, []};
ghost use Rattle.nm_compose.specs.declared.or.Or.{Or};
ghost use Rattle.nm_mappings.specs.Visiting.{IsNewVisits};
ghost use Rattle.nm_looks.specs.Looking.{looks_data, IsNewLooks};
ghost use Rattle.nm_cool.specs.declared.cool.CoolStage.{CoolStage};
ghost use Rattle.nm_cool.specs.Stages.{cool_data, cool_piece, cool_piece_made, IsNewCoolPiece, MayGoCool, cool_arm_stage, outside_in};

use nm_base::Geometry;
use nm_compose::{Act, Composite, Next, Or, Plan};
use nm_event::{Action, Reply};
use nm_looks::{Looks, LooksRun, Seen};
use nm_mappings::{VisitPlan, Visits};
use nm_vpages::VPageSet;
use std::mem;

/// The mark of a candidate.
const CANDIDATE: u64 = 1;
/// The mark of a page that is none.
const NO_MARK: u64 = 0;
/// The tier whose pages are not armed, since they can't be moved to a faster one.
const FASTEST: u32 = 0;

/// How a candidate was cooled.
#[derive(Clone, Copy, Debug, PartialEq, Eq)]
pub enum Cooled {
    /// The page's lock was held, and nothing was done.
    Busy,
    /// The page is no candidate any more.
    Cold,
}

/// How far the steps have come.
#[derive(Drop)]
pub(crate) enum CoolStage {
    /// They have not begun.
    New,
    /// 1. The page is locked.
    Locking,
    /// 2. The virtual pages of the page are looked at.
    Looking,
    /// 3. These virtual pages are armed.
    Arming(VPageSet),
    /// 4. The mark is taken away.
    Marking,
    /// 5. The page is unlocked.
    Unlocking,
}

/// A piece of the steps: an action, Looks at the page's virtual pages, or Arms of them.
pub type CoolPiece<'a> = Or<Act, Or<LooksRun<'a>, Visits>>;

/// How a piece ends.
pub type CoolEnd = Or<Reply, Or<Seen, VPageSet>>;

/// Cools a candidate: the page is locked, each of its virtual pages is looked at, those whose frame is not in tier 0 are
/// armed, the mark of a candidate is taken away, and the page is unlocked. Where its lock is held, nothing is done.
#[derive(Drop)]
pub struct Cool<'a> {
    geometry: &'a Geometry,
    page: u32,
    stage: CoolStage,
}

impl<'a> Cool<'a> {
    /// The steps for a page. Where they begin the page is there, has a virtual page, and may be locked.
    pub fn new(g: &'a Geometry, page: u32) -> Cool<'a>
        ensures geometry { result.geometry.now ≡ g.now }
        ensures page { result.page ≡ page }
        ensures new { result.stage ≡ CoolStage.New }
    {
        Cool {
            geometry: g,
            page,
            stage: CoolStage::New,
        }
    }

    /// The piece of a stage.
    fn piece_of(&self, stage: &CoolStage) -> CoolPiece<'a>
        requires { MayGoCool (cool_data self.now) stage.now }
        ensures made { cool_piece_made result ≡ cool_piece (cool_data self.now) stage.now }
        ensures new { IsNewCoolPiece result }
    {
        let g = self.geometry;
        let page = self.page;
        match stage {
            CoolStage::New | CoolStage::Locking => action(Action::Lock { page }),
            CoolStage::Looking => looks(Looks::new(g, page, FASTEST, VPageSet::of_page(g, page))),
            CoolStage::Arming(pages) => arms(VisitPlan::arms(page, pages.copy())),
            CoolStage::Marking => action(Action::Mark {
                page,
                from: CANDIDATE,
                to: NO_MARK,
            }),
            CoolStage::Unlocking => action(Action::Unlock { page }),
        }
    }

    /// Comes to a stage, and gives its piece.
    fn go(&mut self, stage: CoolStage) -> CoolPiece<'a>
        requires { MayGoCool (cool_data self.old) stage }
        ensures stage { self.new ≡ record self.old { stage = stage } }
        ensures made { cool_piece_made result ≡ cool_piece (cool_data self.old) stage }
        ensures new { IsNewCoolPiece result }
    {
        let piece = self.piece_of(&stage);
        self.stage = stage;
        piece
    }
}

/// The stage in which these virtual pages are armed; the next one where there is none.
fn cool_arm_stage(pages: VPageSet) -> CoolStage
    ensures { result ≡ cool_arm_stage pages }
{
    if pages.is_empty() {
        CoolStage::Marking
    } else {
        CoolStage::Arming(pages)
    }
}

/// The virtual pages that Looks saw outside tier 0 (none where the piece was no Looks, of which nothing is claimed).
fn outside_in(end: CoolEnd) -> VPageSet
    ensures { result ≡ outside_in end }
{
    match end {
        Or::This(_) => VPageSet::new(),
        Or::Other(end) => match end {
            Or::This(seen) => seen.outside,
            Or::Other(_) => VPageSet::new(),
        },
    }
}

/// The piece that makes an action.
fn action<'a>(action: Action) -> CoolPiece<'a>
    ensures made { cool_piece_made result ≡ Or.This action }
    ensures new { IsNewCoolPiece result }
{
    Or::This(Act::new(action))
}

/// The piece that looks at virtual pages.
fn looks<'a>(plan: Looks<'a>) -> CoolPiece<'a>
    requires { IsNewLooks plan }
    ensures made { cool_piece_made result ≡ Or.Other (Or.This (looks_data plan.entry)) }
    ensures new { IsNewCoolPiece result }
{
    Or::Other(Or::This(LooksRun::new(plan)))
}

/// The piece that arms virtual pages.
fn arms<'a>(plan: VisitPlan) -> CoolPiece<'a>
    requires { IsNewVisits plan }
    ensures made { cool_piece_made result ≡ Or.Other (Or.Other plan.made) }
    ensures new { IsNewCoolPiece result }
{
    Or::Other(Or::Other(Visits::new(plan)))
}

impl<'a> Plan<CoolPiece<'a>> for Cool<'a> {
    type Outcome = Cooled;

    type Made = (Geometry, u32);

    ghost use Rattle.std.specs.Prelude.{◌≡◌};
    ghost use Rattle.nm_compose.specs.Stages.{IsPieceAt};
    ghost use Rattle.nm_cool.specs.declared.cool.CoolStage.TheVariants.{New};
    ghost use Rattle.nm_cool.specs.Cooling.{IsCooling, MayCool, IsCooledLeft};
    ghost use Rattle.nm_cool.specs.Stages.{cool_left, cool_stages};

    ghost made = { λ s. record { 0 = s.geometry.now; 1 = s.page } };

    ghost is_new = { λ s. s.stage ≡ New };

    ghost may_begin = { MayCool };

    ghost shape = { IsCooling };

    ghost leaves = { λ made g view outcome left. IsCooledLeft made view outcome left };

    ghost knows = { λ s. IsPieceAt cool_stages (record { 0 = s.geometry.now; 1 = s.page }) s.stage };

    ghost left = { λ s. cool_left (record { 0 = s.geometry.now; 1 = s.page }) s.stage };

    ghost ended = { λ s g outcome. Unit {0} };

    fn begin(&mut self) -> CoolPiece<'a> {
        self.go(CoolStage::Locking)
    }

    fn go_on(&mut self, _piece: &CoolPiece<'a>, end: CoolEnd) -> Next<CoolPiece<'a>, Cooled> {
        match mem::replace(&mut self.stage, CoolStage::New) {
            CoolStage::New => unreachable!(),
            CoolStage::Locking => {
                let Or::This(reply) = end else { unreachable!() };
                match reply {
                    Reply::Done => Next::Run(self.go(CoolStage::Looking)),
                    Reply::Busy(_) => Next::Over(Cooled::Busy),
                    Reply::Word(_) | Reply::Lost(_) => unreachable!(),
                }
            }
            CoolStage::Looking => Next::Run(self.go(cool_arm_stage(outside_in(end)))),
            CoolStage::Arming(_) => Next::Run(self.go(CoolStage::Marking)),
            CoolStage::Marking => Next::Run(self.go(CoolStage::Unlocking)),
            CoolStage::Unlocking => Next::Over(Cooled::Cold),
        }
    }
}
