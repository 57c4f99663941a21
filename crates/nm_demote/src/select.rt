//! The steps of a demotion before the page is taken out of the table.

ghost use Rattle.std.specs.Prelude.{◌≡◌, ◌≢◌, [], length};
ghost use Rattle.nm_base.specs.Geometry.{IsGeometry, tier_of};
ghost use Rattle.nm_base.specs.HomeWord.{IsHomeWord};
ghost use Rattle.nm_compose.specs.declared.or.Or.{Or};
ghost use Rattle.nm_mappings.specs.Visiting.{IsNewVisits};
ghost use Rattle.nm_obtain.specs.Searching.{IsNewObtain};
ghost use Rattle.nm_demote.specs.Selecting.{has_slower, obtain_for};
ghost use Rattle.nm_demote.specs.declared.select.Stage.{Stage};
ghost use Rattle.nm_demote.specs.Stages.{select_piece, select_piece_made, IsNewSelectPiece, MaySeekFrom, MayGoToSelect, demote_lock_stage, demote_home_stage, demote_look_stage, told_in_selecting, found_in_selecting};

use nm_base::Geometry;
use nm_base::shadow_word::shadow_frame;
use nm_compose::{Act, Next, Or, Plan};
use nm_event::{Action, Cell, Reply, Spent};
use nm_mappings::{VisitPlan, Visits};
use nm_obtain::{Obtain, ObtainRun, Obtained};
use nm_prepare::is_worn;
use nm_transfer::Source;
use nm_vpages::VPageSet;
use std::mem;

/// What a demotion is made with.
#[derive(Clone, Copy, Debug, PartialEq, Eq)]
pub struct DemoteMade {
    /// The backing page.
    pub page: u32,
    /// How many bumps and raises the actor has made before.
    pub spent: Spent,
}

/// Why the page is unlocked again before it is taken out of the table.
#[derive(Clone, Copy, Debug, PartialEq, Eq)]
pub enum Early {
    /// The page has no shadow, and so many frames of the next slower tier are free after shadows were reclaimed, which is 0.
    NoFrame(u32),
    /// The page has no home, or its home is in the last tier, or none of its virtual pages has a table word.
    Gone,
    /// The actor has made at least 2^56 - 1 bumps or at least 2^59 - 8,192 raises.
    Worn,
}

/// How the steps end.
#[derive(Debug, Drop)]
pub enum Selected {
    /// The page's lock was held.
    Busy,
    /// The page is unlocked again.
    Closed(Early),
    /// The page can be taken out of the table.
    Ready {
        /// The frame of its home.
        home: u32,
        /// The frame of its new home.
        frame: u32,
        /// Whether that is the shadow of its home, or a frame that was taken.
        source: Source,
        /// Its virtual pages that have table words.
        pages: VPageSet,
    },
}

/// How far the steps have come.
#[derive(Debug, Drop)]
pub(crate) enum Stage {
    /// They have not begun.
    New,
    /// 1. The page is locked.
    Locking,
    /// The page is unlocked, since the work ends so.
    Unlocking(Early),
    /// 3. The home is read.
    ReadingHome,
    /// 4. The shadow word of the home is read.
    ReadingShadow { home: u32 },
    /// 5. The virtual pages of the page are looked at.
    Looking { home: u32, shadow: u64 },
    /// 6. A frame of the next slower tier is sought.
    Obtaining { home: u32, pages: VPageSet },
}

/// A piece of the steps: an action, visits of the page's virtual pages, or the search for a frame.
pub type SelectPiece<'a> = Or<Act, Or<Visits, ObtainRun<'a>>>;

/// How a piece ends.
pub type SelectEnd = Or<Reply, Or<VPageSet, Obtained>>;

/// The steps of a demotion before the page is taken out of the table: the page is locked, its home and its shadow word are
/// read, its virtual pages looked at, and where there is no shadow a frame of the next slower tier is taken.
#[derive(Drop)]
pub struct Select<'a> {
    geometry: &'a Geometry,
    made: DemoteMade,
    stage: Stage,
}

impl<'a> Select<'a> {
    /// The steps for a page. `spent` is what the actor has drawn. Where they begin the page is there, the view has no open
    /// operation and holds no turn.
    pub fn new(g: &'a Geometry, page: u32, spent: Spent) -> Select<'a>
        ensures geometry { result.geometry.now ≡ g.now }
        ensures made { result.made ≡ record { page = page; spent = spent } }
        ensures new { result.stage ≡ Stage.New }
    {
        Select {
            geometry: g,
            made: DemoteMade { page, spent },
            stage: Stage::New,
        }
    }

    /// Whether a home word names a frame that is not in the last tier.
    fn has_slower(&self, word: u64) -> bool
        requires geometry { IsGeometry self.now.geometry.now }
        requires word { IsHomeWord self.now.geometry.now word }
        ensures { result ≡ has_slower self.now.geometry.now word }
    {
        let g = self.geometry;
        word != 0 && g.tier_of((word - 1) as u32) as usize + 1 < g.tiers.len()
    }

    /// The stage after the home word was read.
    fn demote_home_stage(&self, word: u64) -> Stage
        requires geometry { IsGeometry self.now.geometry.now }
        requires word { IsHomeWord self.now.geometry.now word }
        ensures { result ≡ demote_home_stage self.now.geometry.now word }
    {
        if self.has_slower(word) {
            Stage::ReadingShadow {
                home: (word - 1) as u32,
            }
        } else {
            Stage::Unlocking(Early::Gone)
        }
    }

    /// The stage in which the virtual pages are looked at, if there are any.
    fn demote_look_stage(&self, home: u32, shadow: u64) -> Stage
        ensures { result ≡ demote_look_stage self.now.geometry.now self.now.made home shadow }
    {
        if VPageSet::of_page(self.geometry, self.made.page).is_empty() {
            Stage::Unlocking(Early::Gone)
        } else {
            Stage::Looking { home, shadow }
        }
    }

    /// The search for a frame of the tier after that of a home.
    fn obtain(&self, home: u32) -> Obtain<'a>
        requires { MaySeekFrom self.now.geometry.now home }
        ensures geometry { result.geometry.now ≡ self.now.geometry.now }
        ensures made { result.made ≡ obtain_for self.now.geometry.now self.now.made home }
        ensures new { IsNewObtain result }
    {
        Obtain::new(
            self.geometry,
            self.made.page,
            self.geometry.tier_of(home) + 1,
        )
    }

    /// The piece of a stage.
    fn piece_of(&self, stage: &Stage) -> SelectPiece<'a>
        requires { MayGoToSelect self.now.geometry.now self.now.made stage.now }
        ensures made { select_piece_made result ≡ select_piece self.now.geometry.now self.now.made stage.now }
        ensures new { IsNewSelectPiece result }
    {
        let page = self.made.page;
        match stage {
            Stage::New | Stage::Locking => action(Action::Lock { page }),
            Stage::Unlocking(_) => action(Action::Unlock { page }),
            Stage::ReadingHome => action(Action::Read {
                page,
                cell: Cell::Home(page),
            }),
            Stage::ReadingShadow { home } => action(Action::Read {
                page,
                cell: Cell::Shadow(*home),
            }),
            Stage::Looking { .. } => looks(VisitPlan::looks(
                page,
                VPageSet::of_page(self.geometry, page),
            )),
            Stage::Obtaining { home, .. } => search(self.obtain(*home)),
        }
    }

    /// Comes to a stage, and gives its piece.
    fn go(&mut self, stage: Stage) -> SelectPiece<'a>
        requires { MayGoToSelect self.old.geometry.now self.old.made stage }
        ensures stage { self.new ≡ record self.old { stage = stage } }
        ensures made { select_piece_made result ≡ select_piece self.old.geometry.now self.old.made stage }
        ensures new { IsNewSelectPiece result }
    {
        let piece = self.piece_of(&stage);
        self.stage = stage;
        piece
    }
}

/// The stage after the page was locked.
fn demote_lock_stage(spent: Spent) -> Stage
    ensures { result ≡ demote_lock_stage spent }
{
    if is_worn(spent) {
        Stage::Unlocking(Early::Worn)
    } else {
        Stage::ReadingHome
    }
}

/// The word that the reply carries with which a piece ended (0 where it carries none, of which nothing is claimed).
fn told_in_selecting(end: SelectEnd) -> u64
    ensures { result ≡ told_in_selecting end }
{
    match end {
        Or::This(reply) => match reply {
            Reply::Done => 0,
            Reply::Word(word) | Reply::Busy(word) | Reply::Lost(word) => word,
        },
        Or::Other(_) => 0,
    }
}

/// The virtual pages that visits found (none where the piece was no visits, of which nothing is claimed).
fn found_in_selecting(end: SelectEnd) -> VPageSet
    ensures { result ≡ found_in_selecting end }
{
    match end {
        Or::This(_) => VPageSet::new(),
        Or::Other(end) => match end {
            Or::This(found) => found,
            Or::Other(_) => VPageSet::new(),
        },
    }
}

/// The piece that makes an action.
fn action<'a>(action: Action) -> SelectPiece<'a>
    ensures made { select_piece_made result ≡ Or.This action }
    ensures new { IsNewSelectPiece result }
{
    Or::This(Act::new(action))
}

/// The piece that looks at virtual pages.
fn looks<'a>(plan: VisitPlan) -> SelectPiece<'a>
    requires { IsNewVisits plan }
    ensures made { select_piece_made result ≡ Or.Other (Or.This plan.made) }
    ensures new { IsNewSelectPiece result }
{
    Or::Other(Or::This(Visits::new(plan)))
}

/// The piece that seeks a frame.
fn search<'a>(plan: Obtain<'a>) -> SelectPiece<'a>
    requires { IsNewObtain plan }
    ensures made { select_piece_made result ≡ Or.Other (Or.Other (record { 0 = plan.entry.geometry.now; 1 = plan.entry.made })) }
    ensures new { IsNewSelectPiece result }
{
    Or::Other(Or::Other(ObtainRun::new(plan)))
}

impl<'a> Plan<SelectPiece<'a>> for Select<'a> {
    type Outcome = Selected;

    type Made = (Geometry, DemoteMade);

    ghost use Rattle.std.specs.Prelude.{◌≡◌};
    ghost use Rattle.nm_demote.specs.declared.select.Stage.TheVariants.{New};
    ghost use Rattle.nm_prepare.specs.Placing.{IsPlanPlaced};
    ghost use Rattle.nm_demote.specs.Selecting.{IsSelecting};
    ghost use Rattle.nm_demote.specs.Selections.{MayDemote, IsSelected};
    ghost use Rattle.nm_demote.specs.Stages.{select_piece, select_left, SelectKnown};

    ghost made = { λ s. record { 0 = s.geometry.now; 1 = s.made } };

    ghost is_new = { λ s. s.stage ≡ New };

    ghost may_begin = { λ made g view. MayDemote made.0 made.1 g view };

    ghost shape = { λ made g own outcome. IsSelecting made.1 g own outcome };

    ghost leaves = { λ made g view outcome left. IsSelected made.1 g view outcome left };

    ghost knows = { λ s. IsPlanPlaced select_piece SelectKnown s.geometry.now s.made s.stage };

    ghost left = { λ s. select_left s.made s.stage };

    ghost ended = { λ s g outcome. Unit {0} };

    fn begin(&mut self) -> SelectPiece<'a> {
        self.go(Stage::Locking)
    }

    fn go_on(
        &mut self,
        _piece: &SelectPiece<'a>,
        end: SelectEnd,
    ) -> Next<SelectPiece<'a>, Selected> {
        match mem::replace(&mut self.stage, Stage::New) {
            Stage::New => unreachable!(),
            Stage::Locking => {
                let Or::This(reply) = end else { unreachable!() };
                match reply {
                    Reply::Done => Next::Run(self.go(demote_lock_stage(self.made.spent))),
                    Reply::Busy(_) => Next::Over(Selected::Busy),
                    Reply::Word(_) | Reply::Lost(_) => unreachable!(),
                }
            }
            Stage::Unlocking(early) => Next::Over(Selected::Closed(early)),
            Stage::ReadingHome => {
                let stage = self.demote_home_stage(told_in_selecting(end));
                Next::Run(self.go(stage))
            }
            Stage::ReadingShadow { home } => {
                let stage = self.demote_look_stage(home, told_in_selecting(end));
                Next::Run(self.go(stage))
            }
            Stage::Looking { home, shadow } => {
                let pages = found_in_selecting(end);
                if pages.is_empty() {
                    Next::Run(self.go(Stage::Unlocking(Early::Gone)))
                } else if shadow == 0 {
                    Next::Run(self.go(Stage::Obtaining { home, pages }))
                } else {
                    Next::Over(Selected::Ready {
                        home,
                        frame: shadow_frame(shadow),
                        source: Source::Shadow,
                        pages,
                    })
                }
            }
            Stage::Obtaining { home, pages } => {
                let Or::Other(end) = end else { unreachable!() };
                let Or::Other(obtained) = end else {
                    unreachable!()
                };
                match obtained {
                    Obtained::Got(frame) => Next::Over(Selected::Ready {
                        home,
                        frame,
                        source: Source::Copy,
                        pages,
                    }),
                    Obtained::AtFloor(n) => {
                        Next::Run(self.go(Stage::Unlocking(Early::NoFrame(n))))
                    }
                }
            }
        }
    }
}
