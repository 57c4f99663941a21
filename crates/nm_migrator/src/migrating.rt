//! The migrator as a routine: which task comes after which.

ghost use Rattle.std.specs.Prelude.{◌≡◌, ◌+◌, IfOk, None};
ghost use Rattle.nm_part.specs.Patterns.{CanEnd};
ghost use Rattle.nm_transfer.specs.Stages.{HoldsWords};
ghost use Rattle.nm_worker.specs.Routines.{task_data, IsNextTask, IsTaskOver, IsDrawn, HasTaskOver};
ghost use Rattle.nm_view.specs.Views.{View};
ghost use Rattle.nm_view.specs.Opening.{opening};
ghost use Rattle.nm_migrator_work.specs.Works.{migrator_work_made, IsNewMigratorWork, MayMigratorWork, IsMigratorWork, MigratorWorkLeaves, MigratorWorkEnded};
ghost use Rattle.nm_migrator.specs.declared.migrating.MigratingStage.{MigratingStage};
ghost use Rattle.nm_migrator_work.specs.Ends.{migrator_counts};
ghost use Rattle.nm_migrator.specs.Migrating.{IsMigratingBy};
ghost use Rattle.nm_migrator.specs.Stages.{migrator_kept, migrating_made, migrating_left, stage_task, IsNewTask, MayComeTo, IsNewMigrating, IsMigratingAt};

use nm_base::Geometry;
use nm_batch::PieceList;
use nm_event::{Lane, Spent, Tally};
use nm_migrator_work::ends::{
    all_ended_in, batch_in, cooled_in, drawn_in, full_in, is_busy_in, looks_in, mark_reply_in,
    migrator_counts, taken_page_in, words_in, work_in,
};
use nm_migrator_work::lists::copied;
use nm_migrator_work::{
    MigratorEnd, MigratorPiece, ask_work, batch_work, cool_work, looks_work, mark_work, move_work,
};
use nm_times::Times;
use nm_transfer::TakenWords;
use nm_worker::{Ended, Resuming, Routine, Task};
use std::alloc::{AllocError, Global};

/// The mark of a page that is none.
const NO_MARK: u64 = 0;
/// The mark of a candidate.
const CANDIDATE: u64 = 1;
/// The mark of a page that is to be moved.
const PENDING: u64 = 2;

/// How far the migrator has come.
#[derive(Clone, Copy)]
pub(crate) enum MigratingStage {
    /// It has given no task yet.
    New,
    /// 1. A candidate is taken.
    TakingCandidate,
    /// The candidate's virtual pages are looked at.
    Judging(u32),
    /// It is hot, and marked as pending.
    Heating(u32),
    /// It is put in the pending pages.
    PuttingHot(u32),
    /// It is not hot, and cooled.
    Cooling(u32),
    /// It is busy, and put back.
    PuttingBack(u32),
    /// There was no room for it: it is no candidate any more.
    Spilling(u32),
    /// 2. A pending page is taken.
    TakingPending,
    /// It was taken already, and is put back.
    PuttingTwice(u32),
    /// 3. The page at this place is looked at.
    Planning { index: usize, page: u32 },
    /// The batch is moved.
    Batching,
    /// The page at this place is put in the pending pages again, after the batch.
    PuttingAgain { index: usize, page: u32 },
    /// The page at this place is moved while it is locked.
    Moving { index: usize, page: u32, count: u32 },
    /// It was busy, and is put in the pending pages again.
    PuttingMoved { index: usize, page: u32 },
    /// 4. The processors are asked whether they have ended.
    Asking,
    /// They have; a candidate is taken once more.
    TakingLast,
    /// There was none: this page is no candidate any more.
    Unmarking(u32),
    /// The migrator has ended.
    Over,
}

/// The routine of the migrator: it judges candidates, moves pending pages, and ends where all processors have ended and
/// nothing is left to be moved.
#[derive(Drop)]
pub struct Migrating<'a> {
    pub(crate) geometry: &'a Geometry,
    /// How many aborts of a page's transaction make it move while it is locked.
    pub(crate) retry: Option<u32>,
    /// How often it was begun again after it had stopped.
    pub(crate) resumed: Times,
    pub(crate) stage: MigratingStage,
    /// How often each page's transaction was aborted since the page was last marked as pending.
    pub(crate) aborts: Vec<u32>,
    /// What the actor has drawn.
    pub(crate) spent: Spent,
    /// The room for words that a locked move takes; the move has it while it runs.
    pub(crate) words: Option<TakenWords>,
    /// The pending pages that were taken.
    pub(crate) taken: PieceList<u32>,
    /// Those that are moved together, each with a virtual page.
    pub(crate) pieces: PieceList<(u32, u32)>,
    /// Those that are moved while they are locked, each with its count of virtual pages.
    pub(crate) moves: PieceList<(u32, u32)>,
    /// Those that are put in the pending pages again after the batch.
    pub(crate) again: PieceList<u32>,
}

impl<'a> Migrating<'a> {
    /// The migrator of a machine of this geometry. The only error is want of memory.
    pub fn new(
        alloc: Global,
        g: &'a Geometry,
        retry: Option<u32>,
    ) -> Result<Migrating<'a>, AllocError>
        ensures made { IfOk result (λ m. migrating_made m ≡ record { 0 = g.now; 1 = retry; 2 = 0 }) }
        ensures new { IfOk result (λ m. IsNewMigrating m) }
    {
        // What a geometry keeps is part of the reasons.
        prove!(g.cpus <= 16);
        let aborts = vec![in alloc; 0; g.pages() as usize]?;
        Ok(Migrating {
            geometry: g,
            retry,
            resumed: Times::never(),
            stage: MigratingStage::New,
            aborts,
            spent: Spent::default(),
            words: Some(TakenWords::with_room(alloc)?),
            taken: PieceList::new(),
            pieces: PieceList::new(),
            moves: PieceList::new(),
            again: PieceList::new(),
        })
    }

    /// Comes to a stage, and gives its task.
    pub(crate) fn go(&mut self, stage: MigratingStage) -> Task<MigratorPiece<'a>>
        requires { MayComeTo self.old stage }
        ensures stage { self.new ≡ record self.old { stage = stage } }
        ensures made { task_data migrator_work_made result ≡ stage_task self.old stage }
        ensures new { IsNewTask IsNewMigratorWork result }
    {
        self.stage = stage;
        let g = self.geometry;
        match stage {
            MigratingStage::TakingCandidate | MigratingStage::TakingLast => {
                Task::Take(Lane::Candidates)
            }
            MigratingStage::TakingPending => Task::Take(Lane::Pending),
            MigratingStage::PuttingBack(page) => Task::Put(Lane::Candidates, page),
            MigratingStage::PuttingHot(page)
            | MigratingStage::PuttingTwice(page)
            | MigratingStage::PuttingAgain { page, .. }
            | MigratingStage::PuttingMoved { page, .. } => Task::Put(Lane::Pending, page),
            MigratingStage::Judging(page) | MigratingStage::Planning { page, .. } => {
                Task::Run(looks_work(g, page))
            }
            MigratingStage::Heating(page) => Task::Run(mark_work(page, CANDIDATE, PENDING)),
            MigratingStage::Spilling(page) | MigratingStage::Unmarking(page) => {
                Task::Run(mark_work(page, CANDIDATE, NO_MARK))
            }
            MigratingStage::Cooling(page) => Task::Run(cool_work(g, page)),
            MigratingStage::Batching => {
                Task::Run(batch_work(g, copied(&self.pieces), self.spent))
            }
            MigratingStage::Asking => Task::Run(ask_work(g)),
            MigratingStage::Moving { .. } | MigratingStage::New | MigratingStage::Over => {
                Task::Stop
            }
        }
    }

    /// Comes to the locked move of a page, which takes the room for the taken words.
    pub(crate) fn go_move(&mut self, index: usize, page: u32, count: u32) -> Task<MigratorPiece<'a>>
        requires { HoldsWords self.old.words }
        ensures stage { self.new ≡ record self.old { stage = MigratingStage.Moving index page count; words = None } }
        ensures made { task_data migrator_work_made result ≡ stage_task self.old (MigratingStage.Moving index page count) }
        ensures new { IsNewTask IsNewMigratorWork result }
    {
        let Some(words) = self.words.take() else {
            unreachable!()
        };
        self.stage = MigratingStage::Moving { index, page, count };
        let g = self.geometry;
        Task::Run(move_work(g, page, count, self.spent, words))
    }
}

impl<'a> Routine<MigratorPiece<'a>> for Migrating<'a> {
    type Made = (Geometry, Option<u32>, u64);

    ghost use Rattle.nm_migrator.specs.Stages.{migrator_kept, migrating_made, IsNewMigrating, IsMigratingAt, migrating_left};
    ghost use Rattle.nm_migrator_work.specs.Planned.{MigratorKept};
    ghost use Rattle.nm_migrator.specs.Migrating.{IsMigratingBy};
    ghost use Rattle.nm_migrator_work.specs.Ends.{migrator_counts};

    ghost made = { migrating_made };

    ghost geometry = { λ made. made.0 };

    ghost number = { λ made. made.0.cpus };

    ghost is_new = { IsNewMigrating };

    ghost Outcome = { MigratorKept };

    ghost shape = { λ made. IsMigratingBy made.2 made.0 made.1 };

    ghost counts = { migrator_counts };

    ghost knows = { IsMigratingAt };

    ghost left = { migrating_left };

    ghost stop = { migrator_kept };

    fn begin(&mut self) -> Task<MigratorPiece<'a>>
        requires { IsNewMigrating self.old }
        ensures made { migrating_made self.new ≡ migrating_made self.old }
        ensures can { CanEnd (IsMigratingBy self.old.resumed.number self.old.geometry.now self.old.retry) }
        ensures next { IsNextTask migrator_work_made IsNewMigratorWork MayMigratorWork IsMigratorWork migrator_counts (IsMigratingAt self.new) (migrating_left self.new) (migrator_kept self.new) (IsMigratingBy self.old.resumed.number self.old.geometry.now self.old.retry)
            self.old.geometry.now (opening self.old.geometry.now self.old.geometry.now.cpus) result }
    {
        self.go(MigratingStage::TakingCandidate)
    }

    fn go_on(
        &mut self,
        _task: &Task<MigratorPiece<'a>>,
        end: Ended<MigratorEnd>,
        _spent: Spent,
    ) -> Task<MigratorPiece<'a>>
        requires { HasTaskOver migrator_work_made IsMigratorWork MigratorWorkLeaves MigratorWorkEnded (IsMigratingAt self.old) self.old.geometry.now _task.now end _spent }
        ensures made { migrating_made self.new ≡ migrating_made self.old }
        ensures next { (now later : View) → IsMigratingAt self.old now (task_data migrator_work_made _task.now)
            → IsTaskOver migrator_work_made IsMigratorWork MigratorWorkLeaves MigratorWorkEnded self.old.geometry.now now later _task.now end → IsDrawn _spent later
            → IsNextTask migrator_work_made IsNewMigratorWork MayMigratorWork IsMigratorWork migrator_counts (IsMigratingAt self.new) (migrating_left self.new) (migrator_kept self.new) (migrating_left self.old end) self.old.geometry.now later result }
    {
        match self.stage {
            MigratingStage::New => unreachable!(),
            MigratingStage::Over => unreachable!(),
            MigratingStage::TakingCandidate => self.candidate(taken_page_in(&end)),
            MigratingStage::Judging(page) => self.judged(page, looks_in(work_in(end)).hot),
            MigratingStage::Heating(page) => self.heated(page, mark_reply_in(work_in(end))),
            MigratingStage::PuttingHot(page) => self.put_hot(page, full_in(&end)),
            MigratingStage::Cooling(page) => self.cooled(page, cooled_in(work_in(end))),
            MigratingStage::PuttingBack(page) => self.put_back(page, full_in(&end)),
            MigratingStage::Spilling(_) => self.begin_pending(),
            MigratingStage::TakingPending => self.pending(taken_page_in(&end)),
            MigratingStage::PuttingTwice(page) => self.put_twice(page, full_in(&end)),
            MigratingStage::Planning { index, page } => {
                self.planned(index, page, looks_in(work_in(end)).mapped)
            }
            MigratingStage::Batching => self.batched(batch_in(work_in(end))),
            MigratingStage::PuttingAgain { index, page } => {
                self.put_again(index, page, full_in(&end))
            }
            MigratingStage::Moving { index, page, .. } => {
                let end = work_in(end);
                let busy = is_busy_in(&end);
                let spent = drawn_in(&end);
                self.moved(index, page, busy, spent, words_in(end))
            }
            MigratingStage::PuttingMoved { index, page } => {
                self.put_moved(index, page, full_in(&end))
            }
            MigratingStage::Asking => self.asked(all_ended_in(work_in(end))),
            MigratingStage::TakingLast => self.last(taken_page_in(&end)),
            MigratingStage::Unmarking(page) => self.unmark_from(page + 1),
        }
    }

    fn counts(end: &MigratorEnd) -> Tally
        ensures { result ≡ migrator_counts end.now }
    {
        migrator_counts(end)
    }
}

impl<'a> Resuming<MigratorPiece<'a>> for Migrating<'a> {
    ghost use Rattle.std.specs.Prelude.{◌+◌, ◌++◌};
    ghost use Rattle.nm_worker.specs.declared.routine.Task.TheVariants.{Stop};
    ghost use Rattle.nm_worker.specs.Notes.{Notes};
    ghost use Rattle.nm_worker.specs.Routines.{HasStopped, IsBegunAgain};

    ghost can_resume = { λ m. Unit {0} };

    ghost resumed = { λ made. record { 0 = made.0; 1 = made.1; 2 = made.2 + 1 } };

    fn resume(&mut self) -> Task<MigratorPiece<'a>>
        requires stopped { HasStopped (IsMigratingAt self.old) }
        ensures made { migrating_made self.new ≡ record { 0 = self.old.geometry.now; 1 = self.old.retry; 2 = self.old.resumed.number + 1 } }
        ensures geometry { self.new.geometry.now ≡ self.old.geometry.now }
        ensures number { self.new.geometry.now.cpus ≡ self.old.geometry.now.cpus }
        ensures next { (notes : Notes) (view : View) → IsMigratingAt self.old view Stop → IsMigratingBy self.old.resumed.number self.old.geometry.now self.old.retry notes (migrator_kept self.old)
            → IsBegunAgain
            (IsNextTask migrator_work_made IsNewMigratorWork MayMigratorWork IsMigratorWork migrator_counts (IsMigratingAt self.new) (migrating_left self.new) (migrator_kept self.new) (λ rest outcome. IsMigratingBy self.new.resumed.number self.new.geometry.now self.new.retry (notes ++ rest) outcome) self.old.geometry.now view result)
            (λ rest outcome. IsMigratingBy self.new.resumed.number self.new.geometry.now self.new.retry (notes ++ rest) outcome) }
    {
        self.resumed = self.resumed.once_more();
        self.go(MigratingStage::TakingCandidate)
    }
}
