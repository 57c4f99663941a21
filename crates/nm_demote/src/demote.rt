//! The demotion of a page.

ghost use Rattle.std.specs.Prelude.{◌≡◌, ◌≢◌, [], Some, None};
ghost use Rattle.nm_base.specs.Ranges.{IsFrame};
ghost use Rattle.nm_action.specs.declared.action.Action.{Action};
ghost use Rattle.nm_compose.specs.declared.or.Or.{Or};
ghost use Rattle.nm_pool.specs.Given.{pool_made};
ghost use Rattle.nm_pool.specs.declared.job.PoolJob.{PoolJob};
ghost use Rattle.nm_transfer.specs.Stages.{HoldsWords};
ghost use Rattle.nm_transfer.specs.Transferring.{transfer_made};
ghost use Rattle.nm_transfer.specs.declared.transfer.Rights.TheVariants.{Plain};
ghost use Rattle.nm_demote.specs.declared.demote.DemoteStage.{DemoteStage};
ghost use Rattle.nm_demote.specs.Demotions.{demoted_end, demote_early_end};
ghost use Rattle.nm_demote.specs.Pieces.{demote_parts, IsNewDemotePiece};
ghost use Rattle.nm_demote.specs.Places.{IsDemoteOverWith};

use crate::select::{DemoteMade, Early, Selected};
use crate::select_task::SelectTask;
use nm_base::Geometry;
use nm_compose::{Act, Next, Or, Plan};
use nm_event::{Action, Reply, Spent};
use nm_pool::{PoolEnd, PoolTask};
use nm_transfer::{Rights, Source, TakenWords, Transfer, TransferRun};
use nm_vpages::VPageSet;
use std::mem;

/// How a demotion ends.
#[derive(Clone, Copy, Debug, PartialEq, Eq)]
pub enum DemoteEnd {
    /// The shadow of the page's home is its new home.
    Remapped,
    /// The page is copied into a frame of the next slower tier.
    Copied,
    /// The page has no shadow, and so many frames of the next slower tier are free after shadows were reclaimed, which is 0.
    NoFrame(u32),
    /// The page has no home, or its home is in the last tier, or none of its virtual pages has a table word.
    Gone,
    /// The actor has made at least 2^56 - 1 bumps or at least 2^59 - 8,192 raises.
    Worn,
    /// The page's lock was held.
    Busy,
}

/// How a demotion is over: how it ends, and the list that it was given for the words that are taken.
#[derive(Debug, Drop)]
pub struct DemoteOver {
    /// How it ends.
    pub end: DemoteEnd,
    /// The list for the words.
    pub taken: TakenWords,
}

/// How far a demotion has come.
#[derive(Debug, Drop)]
pub(crate) enum DemoteStage {
    /// It has not begun.
    Idle,
    /// 1 to 6. The page is locked and looked at, and its new home is found.
    Selecting,
    /// 7 to 10. The page is moved.
    Moving {
        home: u32,
        frame: u32,
        source: Source,
        pages: VPageSet,
    },
    /// 11. The page is unlocked.
    Unlocking {
        home: u32,
        source: Source,
    },
    /// The frame of the old home is put back.
    GivingBack {
        home: u32,
        source: Source,
    },
}

/// A piece of a demotion: the steps before the page is taken out of the table, its transfer to the new home, an action, or a
/// task on the free frames.
pub type DemotePiece<'a> = Or<SelectTask<'a>, Or<TransferRun, Or<Act, PoolTask>>>;

/// How a piece of a demotion ends.
pub type DemotePieceEnd = Or<Selected, Or<TakenWords, Or<Reply, PoolEnd>>>;

/// The plan of a demotion: a page is moved to a slower tier while it is out of the table. Its shadow becomes its home, or
/// where it has none it is copied into a frame of the next slower tier.
#[derive(Drop)]
pub struct Demote<'a> {
    geometry: &'a Geometry,
    made: DemoteMade,
    stage: DemoteStage,
    taken: Option<TakenWords>,
}

impl<'a> Demote<'a> {
    /// The demotion of a page. `spent` is what the actor has drawn; `taken` gives the room for the words that are taken. Where
    /// it begins the page is there, the view has no open operation and holds no turn.
    pub fn new(g: &'a Geometry, page: u32, spent: Spent, taken: TakenWords) -> Demote<'a>
        ensures geometry { result.geometry.now ≡ g.now }
        ensures made { result.made ≡ record { page = page; spent = spent } }
        ensures new { result.stage ≡ DemoteStage.Idle }
        ensures room { HoldsWords result.taken }
    {
        Demote {
            geometry: g,
            made: DemoteMade { page, spent },
            stage: DemoteStage::Idle,
            taken: Some(taken),
        }
    }

    /// Comes to the Unlock of the page.
    fn unlock(&mut self, home: u32, source: Source) -> DemotePiece<'a>
        ensures stage { self.new ≡ record self.old { stage = DemoteStage.Unlocking home source } }
        ensures made { demote_parts result ≡ Or.Other (Or.Other (Or.This (Action.Unlock self.old.made.page))) }
        ensures new { IsNewDemotePiece result }
    {
        self.stage = DemoteStage::Unlocking { home, source };
        Or::Other(Or::Other(Or::This(Act::new(Action::Unlock {
            page: self.made.page,
        }))))
    }

    /// Comes to the transfer of the page to its new home.
    fn transfer(
        &mut self,
        home: u32,
        frame: u32,
        source: Source,
        pages: VPageSet,
    ) -> DemotePiece<'a>
        requires words { HoldsWords self.old.taken }
        requires some { pages ≢ [] }
        requires frame { IsFrame self.old.geometry.now frame }
        ensures stage { self.new ≡ record self.old { stage = DemoteStage.Moving home frame source pages; taken = None } }
        ensures made { demote_parts result ≡ Or.Other (Or.This (transfer_made self.old.geometry.now self.old.made.page home frame source Plain pages)) }
        ensures new { IsNewDemotePiece result }
    {
        let Some(taken) = self.taken.take() else {
            unreachable!()
        };
        let plan = Transfer::new(
            self.geometry,
            self.made.page,
            home,
            frame,
            source,
            Rights::Plain,
            pages.copy(),
            taken,
        );
        self.stage = DemoteStage::Moving {
            home,
            frame,
            source,
            pages,
        };
        Or::Other(Or::This(TransferRun::new(plan)))
    }

    /// Comes to the end, where the frame of the old home is put back.
    fn give_back(&mut self, home: u32, source: Source) -> DemotePiece<'a>
        requires { IsFrame self.old.geometry.now home }
        ensures stage { self.new ≡ record self.old { stage = DemoteStage.GivingBack home source } }
        ensures made { demote_parts result ≡ Or.Other (Or.Other (Or.Other (pool_made self.old.geometry.now (PoolJob.Back home)))) }
        ensures new { IsNewDemotePiece result }
    {
        self.stage = DemoteStage::GivingBack { home, source };
        Or::Other(Or::Other(Or::Other(PoolTask::give_back(self.geometry, home))))
    }

    /// Is over so, and gives the list for the words back.
    fn over(&mut self, end: DemoteEnd) -> Next<DemotePiece<'a>, DemoteOver>
        requires { HoldsWords self.old.taken }
        ensures over { IsDemoteOverWith end result }
        ensures geometry { self.new.geometry.now ≡ self.old.geometry.now }
        ensures made { self.new.made ≡ self.old.made }
    {
        match self.taken.take() {
            Some(taken) => Next::Over(DemoteOver { end, taken }),
            None => unreachable!(),
        }
    }
}

/// How a demotion ends that ended early.
fn demote_early_end(early: Early) -> DemoteEnd
    ensures { result ≡ demote_early_end early }
{
    match early {
        Early::NoFrame(n) => DemoteEnd::NoFrame(n),
        Early::Gone => DemoteEnd::Gone,
        Early::Worn => DemoteEnd::Worn,
    }
}

/// How a demotion ends that has moved the page to a new home from this source.
fn demoted_end(source: Source) -> DemoteEnd
    ensures { result ≡ demoted_end source }
{
    match source {
        Source::Shadow => DemoteEnd::Remapped,
        Source::Copy => DemoteEnd::Copied,
    }
}

impl<'a> Plan<DemotePiece<'a>> for Demote<'a> {
    type Outcome = DemoteOver;

    type Made = (Geometry, DemoteMade);

    ghost use Rattle.nm_prepare.specs.Placing.{IsPlanPlaced};
    ghost use Rattle.nm_demote.specs.Selections.{MayDemote};
    ghost use Rattle.nm_demote.specs.Demotions.{IsDemotion};
    ghost use Rattle.nm_demote.specs.Leaving.{IsDemoteLeft};
    ghost use Rattle.nm_demote.specs.Places.{IsNewDemote, demote_at, demote_piece, demote_left, DemoteKnown};

    ghost made = { λ s. record { 0 = s.geometry.now; 1 = s.made } };

    ghost is_new = { IsNewDemote };

    ghost may_begin = { λ made g view. MayDemote made.0 made.1 g view };

    ghost shape = { λ made g own over. IsDemotion made.1 g own over.end };

    ghost leaves = { λ made g view over left. IsDemoteLeft made.1 view over.end left };

    ghost knows = { λ s. IsPlanPlaced demote_piece DemoteKnown s.geometry.now s.made (demote_at s) };

    ghost left = { λ s. demote_left s.made (demote_at s) };

    ghost ended = { λ s g over. Unit {0} };

    fn begin(&mut self) -> DemotePiece<'a> {
        self.stage = DemoteStage::Selecting;
        Or::This(SelectTask::new(self.geometry, self.made.page, self.made.spent))
    }

    fn go_on(
        &mut self,
        _piece: &DemotePiece<'a>,
        end: DemotePieceEnd,
    ) -> Next<DemotePiece<'a>, DemoteOver> {
        match mem::replace(&mut self.stage, DemoteStage::Idle) {
            DemoteStage::Idle => unreachable!(),
            DemoteStage::Selecting => {
                let Or::This(selected) = end else {
                    unreachable!()
                };
                match selected {
                    Selected::Busy => self.over(DemoteEnd::Busy),
                    Selected::Closed(early) => self.over(demote_early_end(early)),
                    Selected::Ready {
                        home,
                        frame,
                        source,
                        pages,
                    } => Next::Run(self.transfer(home, frame, source, pages)),
                }
            }
            DemoteStage::Moving { home, source, .. } => {
                let Or::Other(end) = end else { unreachable!() };
                let Or::This(taken) = end else { unreachable!() };
                self.taken = Some(taken);
                Next::Run(self.unlock(home, source))
            }
            DemoteStage::Unlocking { home, source } => Next::Run(self.give_back(home, source)),
            DemoteStage::GivingBack { source, .. } => self.over(demoted_end(source)),
        }
    }
}
