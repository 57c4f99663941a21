//! The locked move of a page.

ghost use Rattle.std.specs.Prelude.{◌≡◌, ◌≢◌, [], Some, None};
ghost use Rattle.nm_base.specs.Ranges.{IsFrame};
ghost use Rattle.nm_compose.specs.declared.or.Or.{Or};
ghost use Rattle.nm_transfer.specs.Stages.{HoldsWords};
ghost use Rattle.nm_locked.specs.declared.locked.LockedStage.{LockedStage};
ghost use Rattle.nm_locked.specs.Pieces.{locked_parts, IsNewLockedPiece};
ghost use Rattle.nm_pool.specs.Given.{pool_made};
ghost use Rattle.nm_pool.specs.declared.job.PoolJob.{PoolJob};
ghost use Rattle.nm_locked.specs.Moves.{move_early_end, locked_transfer};
ghost use Rattle.nm_locked.specs.Places.{IsOverWith};

use crate::choose::{Choose, ChooseMade, Chosen, Early};
use crate::choose_run::ChooseRun;
use nm_base::Geometry;
use nm_compose::{Act, Next, Or, Plan};
use nm_event::{Action, Reply, Spent};
use nm_pool::{PoolEnd, PoolTask};
use nm_transfer::{Rights, Source, TakenWords, Transfer, TransferRun};
use nm_vpages::VPageSet;
use std::mem;

/// The mark of a page that is to be moved.
const PENDING: u64 = 2;
/// The mark of a page that is not to be moved.
const NO_MARK: u64 = 0;

/// How a locked move ends.
#[derive(Clone, Copy, Debug, PartialEq, Eq)]
pub enum LockedEnd {
    /// The page has a new home in the next faster tier.
    Moved,
    /// So many frames of that tier are free, which is no more than its watermark `min`.
    NoFrame(u32),
    /// The page has no home, or its home is in tier 0, or another number of its virtual pages have table words.
    Gone,
    /// The actor has made at least 2^56 - 1 bumps or at least 2^59 - 8,192 raises.
    Worn,
    /// The page's lock was held.
    Busy,
}

/// How a locked move is over: how it ends, and the list that it was given for the words that are taken.
#[derive(Debug, Drop)]
pub struct LockedOver {
    /// How it ends.
    pub end: LockedEnd,
    /// The list for the words.
    pub taken: TakenWords,
}

/// How far a locked move has come.
#[derive(Debug, Drop)]
pub(crate) enum LockedStage {
    /// It has not begun.
    Idle,
    /// 1 to 6. The page is locked and looked at, and a frame is taken.
    Choosing,
    /// 7 to 11. The page is moved.
    Moving {
        home: u32,
        frame: u32,
        pages: VPageSet,
    },
    /// 12. The mark is taken away.
    Marking(u32),
    /// The page is unlocked.
    Unlocking(u32),
    /// The frame of the old home is put back.
    GivingBack(u32),
}

/// A piece of a locked move: the steps before the page is taken out of the table, its transfer to the new home, an action, or
/// a task on the free frames.
pub type LockedPiece<'a> = Or<ChooseRun<'a>, Or<TransferRun, Or<Act, PoolTask>>>;

/// How a piece of a locked move ends.
pub type LockedPieceEnd = Or<Chosen, Or<TakenWords, Or<Reply, PoolEnd>>>;

/// The plan of a locked move: a page that several virtual pages map is moved to the next faster tier while it is out of the
/// table.
#[derive(Drop)]
pub struct Locked<'a> {
    geometry: &'a Geometry,
    made: ChooseMade,
    stage: LockedStage,
    taken: Option<TakenWords>,
}

impl<'a> Locked<'a> {
    /// The move of a page of which so many virtual pages are to have table words, at least 1. `spent` is what the actor has
    /// drawn; `taken` gives the room for the words that are taken. Where it begins the page is there, the view has no open
    /// operation and holds no turn.
    pub fn new(
        g: &'a Geometry,
        page: u32,
        count: u32,
        spent: Spent,
        taken: TakenWords,
    ) -> Locked<'a>
        ensures geometry { result.geometry.now ≡ g.now }
        ensures made { result.made ≡ record { page = page; count = count; spent = spent } }
        ensures new { result.stage ≡ LockedStage.Idle }
        ensures room { HoldsWords result.taken }
    {
        Locked {
            geometry: g,
            made: ChooseMade { page, count, spent },
            stage: LockedStage::Idle,
            taken: Some(taken),
        }
    }

    /// Comes to an action.
    fn act(&mut self, stage: LockedStage, action: Action) -> LockedPiece<'a>
        ensures stage { self.new ≡ record self.old { stage = stage } }
        ensures made { locked_parts result ≡ Or.Other (Or.Other (Or.This action)) }
        ensures new { IsNewLockedPiece result }
    {
        self.stage = stage;
        Or::Other(Or::Other(Or::This(Act::new(action))))
    }

    /// Comes to the transfer of the page to its new home.
    fn transfer(&mut self, home: u32, frame: u32, pages: VPageSet) -> LockedPiece<'a>
        requires words { HoldsWords self.old.taken }
        requires some { pages ≢ [] }
        requires frame { IsFrame self.old.geometry.now frame }
        ensures stage { self.new ≡ record self.old { stage = LockedStage.Moving home frame pages; taken = None } }
        ensures made { locked_parts result ≡ Or.Other (Or.This (locked_transfer self.old.geometry.now self.old.made home frame pages)) }
        ensures new { IsNewLockedPiece result }
    {
        let Some(taken) = self.taken.take() else {
            unreachable!()
        };
        let plan = Transfer::new(
            self.geometry,
            self.made.page,
            home,
            frame,
            Source::Copy,
            Rights::Kept,
            pages.copy(),
            taken,
        );
        self.stage = LockedStage::Moving { home, frame, pages };
        Or::Other(Or::This(TransferRun::new(plan)))
    }

    /// Comes to the end, where the frame of the old home is put back.
    fn give_back(&mut self, home: u32) -> LockedPiece<'a>
        requires { IsFrame self.old.geometry.now home }
        ensures stage { self.new ≡ record self.old { stage = LockedStage.GivingBack home } }
        ensures made { locked_parts result ≡ Or.Other (Or.Other (Or.Other (pool_made self.old.geometry.now (PoolJob.Back home)))) }
        ensures new { IsNewLockedPiece result }
    {
        self.stage = LockedStage::GivingBack(home);
        Or::Other(Or::Other(Or::Other(PoolTask::give_back(self.geometry, home))))
    }

    /// Is over so, and gives the list for the words back.
    fn over(&mut self, end: LockedEnd) -> Next<LockedPiece<'a>, LockedOver>
        requires { HoldsWords self.old.taken }
        ensures over { IsOverWith end result }
        ensures geometry { self.new.geometry.now ≡ self.old.geometry.now }
        ensures made { self.new.made ≡ self.old.made }
    {
        match self.taken.take() {
            Some(taken) => Next::Over(LockedOver { end, taken }),
            None => unreachable!(),
        }
    }
}

/// How a move ends that ended early.
fn move_early_end(early: Early) -> LockedEnd
    ensures { result ≡ move_early_end early }
{
    match early {
        Early::NoFrame(n) => LockedEnd::NoFrame(n),
        Early::Gone => LockedEnd::Gone,
        Early::Worn => LockedEnd::Worn,
    }
}

impl<'a> Plan<LockedPiece<'a>> for Locked<'a> {
    type Outcome = LockedOver;

    type Made = (Geometry, ChooseMade);

    ghost use Rattle.nm_prepare.specs.Placing.{IsPlanPlaced};
    ghost use Rattle.nm_locked.specs.Chosen.{MayChoose};
    ghost use Rattle.nm_locked.specs.Moves.{IsLockedInMove};
    ghost use Rattle.nm_locked.specs.Leaving.{IsLockedLeft};
    ghost use Rattle.nm_locked.specs.Places.{IsNewLocked, locked_at, locked_piece, locked_left, LockedKnown};

    ghost made = { λ s. record { 0 = s.geometry.now; 1 = s.made } };

    ghost is_new = { IsNewLocked };

    ghost may_begin = { λ made g view. MayChoose made.0 made.1 g view };

    ghost shape = { λ made g own over. IsLockedInMove made.1 g own over.end };

    ghost leaves = { λ made g view over left. IsLockedLeft made.1 view over.end left };

    ghost knows = { λ s. IsPlanPlaced locked_piece LockedKnown s.geometry.now s.made (locked_at s) };

    ghost left = { λ s. locked_left s.made (locked_at s) };

    ghost ended = { λ s g over. Unit {0} };

    fn begin(&mut self) -> LockedPiece<'a> {
        self.stage = LockedStage::Choosing;
        Or::This(ChooseRun::new(Choose::new(
            self.geometry,
            self.made.page,
            self.made.count,
            self.made.spent,
        )))
    }

    fn go_on(
        &mut self,
        _piece: &LockedPiece<'a>,
        end: LockedPieceEnd,
    ) -> Next<LockedPiece<'a>, LockedOver> {
        let page = self.made.page;
        match mem::replace(&mut self.stage, LockedStage::Idle) {
            LockedStage::Idle => unreachable!(),
            LockedStage::Choosing => {
                let Or::This(chosen) = end else {
                    unreachable!()
                };
                match chosen {
                    Chosen::Busy => self.over(LockedEnd::Busy),
                    Chosen::Closed(early) => self.over(move_early_end(early)),
                    Chosen::Ready { home, frame, pages } => {
                        Next::Run(self.transfer(home, frame, pages))
                    }
                }
            }
            LockedStage::Moving { home, .. } => {
                let Or::Other(end) = end else { unreachable!() };
                let Or::This(taken) = end else { unreachable!() };
                self.taken = Some(taken);
                Next::Run(self.act(
                    LockedStage::Marking(home),
                    Action::Mark {
                        page,
                        from: PENDING,
                        to: NO_MARK,
                    },
                ))
            }
            LockedStage::Marking(home) => Next::Run(self.act(
                LockedStage::Unlocking(home),
                Action::Unlock { page },
            )),
            LockedStage::Unlocking(home) => Next::Run(self.give_back(home)),
            LockedStage::GivingBack(_) => self.over(LockedEnd::Moved),
        }
    }
}
