//! What the migrator does next, by how its task ended.

ghost use Rattle.std.specs.Prelude.{◌≡◌, ◌+◌, ◌<◌, ◌≤◌, [], length, drop, All};
ghost use Rattle.nm_base.specs.Geometry.{page_count};
ghost use Rattle.nm_transfer.specs.Stages.{HoldsWords};
ghost use Rattle.nm_vpages.specs.VPages.{most_vpages};
ghost use Rattle.nm_migrator_work.specs.Works.{IsNewMigratorWork};
ghost use Rattle.nm_migrator_work.specs.Planned.{most_taken};
ghost use Rattle.nm_migrator.specs.Stages.{migrator_kept, migrator_plan, migrating_made, CandidateLeft, LastLeft, JudgedLeft, HeatedLeft, CooledLeft, BackLeft, PutLeft, CandidatesLeft, PendingLeft, TakenLeft, TakesLeft, PageLeft, PlansLeft, PlannedLeft, BatchesLeft, BatchedLeft, AgainLeft, MovesLeft, MovedLeft, AskedLeft, UnmarksLeft, HasAborts, IsMigratorKept, IsCandidate, HasTakenPages, IsTakingPages, HasPlan, IsPlanning, HasPlanned, IsBatching, HasMoves, HasAgain, IsPuttingAgain, IsPuttingMoved, IsMove, Gives};

use crate::migrating::{Migrating, MigratingStage};
use nm_batch::PieceList;
use nm_cool::Cooled;
use nm_drawing::Drawn;
use nm_event::{Reply, Spent};
use nm_migrator_work::MigratorPiece;
use nm_migrator_work::lists::{
    aborts_of, again_of, clear_aborts, count_aborts_in, first_or, is_among, is_mapped,
    is_moved_locked,
};
use nm_transfer::TakenWords;
use nm_txn::TxnEnd;
use nm_vpages::VPageSet;
use nm_worker::Task;

/// At most so many pending pages are taken.
const MOST_TAKEN: usize = 8;

impl<'a> Migrating<'a> {
    /// After a candidate was taken: it is judged. Where there was none, pending pages are taken; one to which no virtual page
    /// is mapped is dropped.
    pub(crate) fn candidate(&mut self, page: Option<u32>) -> Task<MigratorPiece<'a>>
        requires { IsMigratorKept self.old }
        ensures made { migrating_made self.new ≡ migrating_made self.old }
        ensures next { Gives IsNewMigratorWork self.old.geometry.now self.old.spent self.new result (CandidateLeft self.old page) }
    {
        match page {
            None => self.begin_pending(),
            Some(page) => {
                if is_mapped(self.geometry, page) {
                    self.go(MigratingStage::Judging(page))
                } else {
                    self.go(MigratingStage::TakingCandidate)
                }
            }
        }
    }

    /// After a candidate was taken once more: it is judged. Where there was none, no page is a candidate any more.
    pub(crate) fn last(&mut self, page: Option<u32>) -> Task<MigratorPiece<'a>>
        requires { IsMigratorKept self.old }
        ensures made { migrating_made self.new ≡ migrating_made self.old }
        ensures next { Gives IsNewMigratorWork self.old.geometry.now self.old.spent self.new result (LastLeft self.old page) }
    {
        match page {
            None => self.unmark_from(0),
            Some(page) => {
                if is_mapped(self.geometry, page) {
                    self.go(MigratingStage::Judging(page))
                } else {
                    self.go(MigratingStage::TakingLast)
                }
            }
        }
    }

    /// After a candidate was looked at: it is marked as pending where it is hot, and cooled where it is not.
    pub(crate) fn judged(&mut self, page: u32, hot: bool) -> Task<MigratorPiece<'a>>
        requires { IsCandidate self.old page }
        ensures made { migrating_made self.new ≡ migrating_made self.old }
        ensures next { Gives IsNewMigratorWork self.old.geometry.now self.old.spent self.new result (JudgedLeft self.old page hot) }
    {
        if hot {
            clear_aborts(&mut self.aborts, page);
            self.go(MigratingStage::Heating(page))
        } else {
            self.go(MigratingStage::Cooling(page))
        }
    }

    /// After a page was marked as pending: it is put in the pending pages where that was done.
    pub(crate) fn heated(&mut self, page: u32, reply: Reply) -> Task<MigratorPiece<'a>>
        requires { IsCandidate self.old page }
        ensures made { migrating_made self.new ≡ migrating_made self.old }
        ensures next { Gives IsNewMigratorWork self.old.geometry.now self.old.spent self.new result (HeatedLeft self.old page reply) }
    {
        match reply {
            Reply::Done => self.go(MigratingStage::PuttingHot(page)),
            Reply::Word(_) => self.go(MigratingStage::TakingCandidate),
            Reply::Busy(_) => self.go(MigratingStage::TakingCandidate),
            Reply::Lost(_) => self.go(MigratingStage::TakingCandidate),
        }
    }

    /// After a hot page was put in the pending pages: again while these are full.
    pub(crate) fn put_hot(&mut self, page: u32, full: bool) -> Task<MigratorPiece<'a>>
        requires { IsCandidate self.old page }
        ensures made { migrating_made self.new ≡ migrating_made self.old }
        ensures next { Gives IsNewMigratorWork self.old.geometry.now self.old.spent self.new result (λ n. PutLeft page full (CandidatesLeft self.old n)) }
    {
        if full {
            self.go(MigratingStage::PuttingHot(page))
        } else {
            self.go(MigratingStage::TakingCandidate)
        }
    }

    /// After a candidate was cooled: where it was busy it is put back.
    pub(crate) fn cooled(&mut self, page: u32, end: Cooled) -> Task<MigratorPiece<'a>>
        requires { IsCandidate self.old page }
        ensures made { migrating_made self.new ≡ migrating_made self.old }
        ensures next { Gives IsNewMigratorWork self.old.geometry.now self.old.spent self.new result (CooledLeft self.old page end) }
    {
        match end {
            Cooled::Busy => self.go(MigratingStage::PuttingBack(page)),
            Cooled::Cold => self.go(MigratingStage::TakingCandidate),
        }
    }

    /// After a candidate was put back: where there was no room it is no candidate any more.
    pub(crate) fn put_back(&mut self, page: u32, full: bool) -> Task<MigratorPiece<'a>>
        requires { IsCandidate self.old page }
        ensures made { migrating_made self.new ≡ migrating_made self.old }
        ensures next { Gives IsNewMigratorWork self.old.geometry.now self.old.spent self.new result (BackLeft self.old page full) }
    {
        if full {
            self.go(MigratingStage::Spilling(page))
        } else {
            self.begin_pending()
        }
    }

    /// Begins to take pending pages.
    pub(crate) fn begin_pending(&mut self) -> Task<MigratorPiece<'a>>
        requires { IsMigratorKept self.old }
        ensures made { migrating_made self.new ≡ migrating_made self.old }
        ensures next { Gives IsNewMigratorWork self.old.geometry.now self.old.spent self.new result (PendingLeft self.old) }
    {
        self.taken = PieceList::new();
        self.take_pending()
    }

    /// Takes a pending page, where fewer than eight were taken.
    fn take_pending(&mut self) -> Task<MigratorPiece<'a>>
        requires { HasTakenPages self.old }
        ensures made { migrating_made self.new ≡ migrating_made self.old }
        ensures next { Gives IsNewMigratorWork self.old.geometry.now self.old.spent self.new result (TakesLeft self.old) }
    {
        if self.taken.len() < MOST_TAKEN {
            self.go(MigratingStage::TakingPending)
        } else {
            self.all_taken()
        }
    }

    /// After a pending page was taken: the next is taken. Where there was none, that was all; a page that was taken already is
    /// put back; one to which no virtual page is mapped is dropped.
    pub(crate) fn pending(&mut self, page: Option<u32>) -> Task<MigratorPiece<'a>>
        requires { IsTakingPages self.old }
        ensures made { migrating_made self.new ≡ migrating_made self.old }
        ensures next { Gives IsNewMigratorWork self.old.geometry.now self.old.spent self.new result (PageLeft self.old page) }
    {
        match page {
            None => self.all_taken(),
            Some(page) => {
                if !is_mapped(self.geometry, page) {
                    self.go(MigratingStage::TakingPending)
                } else if is_among(page, &self.taken) {
                    self.go(MigratingStage::PuttingTwice(page))
                } else {
                    self.taken.push(page);
                    self.take_pending()
                }
            }
        }
    }

    /// After all pending pages were taken: they are looked at. Where there is none, the processors are asked whether they have
    /// ended.
    fn all_taken(&mut self) -> Task<MigratorPiece<'a>>
        requires { HasTakenPages self.old }
        ensures made { migrating_made self.new ≡ migrating_made self.old }
        ensures next { Gives IsNewMigratorWork self.old.geometry.now self.old.spent self.new result (TakenLeft self.old self.old.taken) }
    {
        match self.taken.get(0) {
            None => self.go(MigratingStage::Asking),
            Some(_) => {
                self.pieces = PieceList::new();
                self.moves = PieceList::new();
                self.plan_from(0)
            }
        }
    }

    /// After a page was put back that was taken already: again while the lane is full.
    pub(crate) fn put_twice(&mut self, page: u32, full: bool) -> Task<MigratorPiece<'a>>
        requires { HasTakenPages self.old }
        ensures made { migrating_made self.new ≡ migrating_made self.old }
        ensures next { Gives IsNewMigratorWork self.old.geometry.now self.old.spent self.new result (λ n. PutLeft page full (TakenLeft self.old self.old.taken n)) }
    {
        if full {
            self.go(MigratingStage::PuttingTwice(page))
        } else {
            self.all_taken()
        }
    }

    /// Looks at the page at this place; where there is none, the batch begins.
    fn plan_from(&mut self, index: usize) -> Task<MigratorPiece<'a>>
        requires { HasPlan self.old index }
        ensures made { migrating_made self.new ≡ migrating_made self.old }
        ensures next { Gives IsNewMigratorWork self.old.geometry.now self.old.spent self.new result (PlansLeft self.old index (migrator_plan self.old)) }
    {
        match self.taken.get(index) {
            Some(page) => self.go(MigratingStage::Planning { index, page }),
            None => self.batch(),
        }
    }

    /// After a page was looked at: it is planned, and the next one is looked at.
    pub(crate) fn planned(
        &mut self,
        index: usize,
        page: u32,
        mapped: VPageSet,
    ) -> Task<MigratorPiece<'a>>
        requires { IsPlanning self.old index page }
        ensures made { migrating_made self.new ≡ migrating_made self.old }
        ensures next { Gives IsNewMigratorWork self.old.geometry.now self.old.spent self.new result (PlannedLeft self.old index page mapped) }
    {
        let count = mapped.len();
        let aborts = aborts_of(&self.aborts, page);
        if is_moved_locked(self.retry, aborts, count) {
            self.moves.push((page, count));
            self.plan_from(index + 1)
        } else {
            let vpage = first_or(&mapped, &VPageSet::of_page(self.geometry, page));
            self.pieces.push((page, vpage));
            self.plan_from(index + 1)
        }
    }

    /// Begins the batch; where it has no piece, the locked moves begin.
    fn batch(&mut self) -> Task<MigratorPiece<'a>>
        requires { HasPlanned self.old }
        ensures made { migrating_made self.new ≡ migrating_made self.old }
        ensures next { Gives IsNewMigratorWork self.old.geometry.now self.old.spent self.new result (BatchesLeft self.old) }
    {
        match self.pieces.get(0) {
            Some(_) => self.go(MigratingStage::Batching),
            None => self.move_from(0),
        }
    }

    /// After the batch: the aborts are counted, and the pages of the pieces that were aborted or busy are put in the pending
    /// pages again.
    pub(crate) fn batched(&mut self, told: Drawn<PieceList<TxnEnd>>) -> Task<MigratorPiece<'a>>
        requires { IsBatching self.old }
        ensures made { migrating_made self.new ≡ migrating_made self.old }
        ensures next { Gives IsNewMigratorWork self.old.geometry.now told.spent self.new result (BatchedLeft self.old told) }
    {
        count_aborts_in(&mut self.aborts, &self.pieces, &told.end);
        self.again = again_of(&self.pieces, &told.end);
        self.spent = told.spent;
        self.again_from(0)
    }

    /// Puts the page at this place in the pending pages again; where there is none, the locked moves begin.
    fn again_from(&mut self, index: usize) -> Task<MigratorPiece<'a>>
        requires { HasAgain self.old }
        ensures made { migrating_made self.new ≡ migrating_made self.old }
        ensures next { Gives IsNewMigratorWork self.old.geometry.now self.old.spent self.new result (AgainLeft self.old index) }
    {
        match self.again.get(index) {
            Some(page) => self.go(MigratingStage::PuttingAgain { index, page }),
            None => self.move_from(0),
        }
    }

    /// After that: again while the lane is full.
    pub(crate) fn put_again(
        &mut self,
        index: usize,
        page: u32,
        full: bool,
    ) -> Task<MigratorPiece<'a>>
        requires { IsPuttingAgain self.old index }
        ensures made { migrating_made self.new ≡ migrating_made self.old }
        ensures next { Gives IsNewMigratorWork self.old.geometry.now self.old.spent self.new result (λ n. PutLeft page full (AgainLeft self.old (index + 1) n)) }
    {
        if full {
            self.go(MigratingStage::PuttingAgain { index, page })
        } else {
            self.again_from(index + 1)
        }
    }

    /// Moves the page at this place while it is locked; where there is none, candidates are taken again.
    fn move_from(&mut self, index: usize) -> Task<MigratorPiece<'a>>
        requires { HasMoves self.old }
        ensures made { migrating_made self.new ≡ migrating_made self.old }
        ensures next { Gives IsNewMigratorWork self.old.geometry.now self.old.spent self.new result (MovesLeft self.old index (migrator_kept self.old)) }
    {
        match self.moves.get(index) {
            Some((page, count)) => self.go_move(index, page, count),
            None => self.go(MigratingStage::TakingCandidate),
        }
    }

    /// After a locked move, at whose end so much was drawn, and which gives the room for taken words back: where the page was
    /// busy, it is put in the pending pages again.
    pub(crate) fn moved(
        &mut self,
        index: usize,
        page: u32,
        busy: bool,
        spent: Spent,
        words: Option<TakenWords>,
    ) -> Task<MigratorPiece<'a>>
        requires has { HasAborts self.old.geometry.now self.old.aborts.items }
        requires moves { All (IsMove self.old.geometry.now) self.old.moves }
        requires few { length self.old.moves ≤ most_taken }
        requires index { index < most_taken }
        requires words { HoldsWords words }
        ensures made { migrating_made self.new ≡ migrating_made self.old }
        ensures next { Gives IsNewMigratorWork self.old.geometry.now spent self.new result (MovedLeft self.old index page busy spent) }
    {
        self.spent = spent;
        self.words = words;
        if busy {
            self.go(MigratingStage::PuttingMoved { index, page })
        } else {
            self.move_from(index + 1)
        }
    }

    /// After that: again while the lane is full.
    pub(crate) fn put_moved(
        &mut self,
        index: usize,
        page: u32,
        full: bool,
    ) -> Task<MigratorPiece<'a>>
        requires { IsPuttingMoved self.old index }
        ensures made { migrating_made self.new ≡ migrating_made self.old }
        ensures next { Gives IsNewMigratorWork self.old.geometry.now self.old.spent self.new result (λ n. PutLeft page full (MovesLeft self.old (index + 1) (migrator_kept self.old) n)) }
    {
        if full {
            self.go(MigratingStage::PuttingMoved { index, page })
        } else {
            self.move_from(index + 1)
        }
    }

    /// After the processors were asked: where all have ended, a candidate is taken once more.
    pub(crate) fn asked(&mut self, all: bool) -> Task<MigratorPiece<'a>>
        requires { IsMigratorKept self.old }
        ensures made { migrating_made self.new ≡ migrating_made self.old }
        ensures next { Gives IsNewMigratorWork self.old.geometry.now self.old.spent self.new result (AskedLeft self.old all) }
    {
        if all {
            self.go(MigratingStage::TakingLast)
        } else {
            self.go(MigratingStage::TakingCandidate)
        }
    }

    /// Makes this page no candidate any more; where there is none, the migrator ends.
    pub(crate) fn unmark_from(&mut self, page: u32) -> Task<MigratorPiece<'a>>
        requires { IsMigratorKept self.old }
        ensures made { migrating_made self.new ≡ migrating_made self.old }
        ensures next { Gives IsNewMigratorWork self.old.geometry.now self.old.spent self.new result (UnmarksLeft self.old page) }
    {
        if page < self.geometry.pages() {
            self.go(MigratingStage::Unmarking(page))
        } else {
            self.go(MigratingStage::Over)
        }
    }
}
