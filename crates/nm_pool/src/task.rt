//! The pool task as a part of an actor's work.

ghost use Rattle.std.specs.Prelude.{◌≡◌, ◌<◌, ◌≤◌, ◌+◌, ◌*◌, ◌^◌, [], ◌∷◌, length, count_ones, IfOk};
ghost use Rattle.nm_base.specs.Geometry.{IsGeometry, frame_count};
ghost use Rattle.nm_action.specs.declared.turn.Step.TheVariants.{Do};
ghost use Rattle.nm_event.specs.After.{scanned_word};
ghost use Rattle.nm_pool.specs.declared.job.PoolJob.{PoolJob};
ghost use Rattle.nm_pool.specs.Pool.{tier_for};
ghost use Rattle.nm_pool.specs.Given.{pool_made};
ghost use Rattle.nm_pool.specs.Stages.{made_of, IsNewPool, action_at, next_stage, taking};

use crate::job::{PoolEnd, PoolJob, PoolMade};
use nm_base::Geometry;
use nm_event::{Action, Reply, Scanned, Step, scanned_word};
use nm_part::{Part, Piece};

/// How far a task has come.
#[derive(Clone, Copy, Debug, PartialEq, Eq)]
pub(crate) enum Stage {
    /// It has not begun.
    New,
    /// It takes the turn.
    Turning,
    /// It scans the next word.
    Scanning,
    /// It takes this frame.
    Giving(u32),
    /// It puts this frame back.
    Putting(u32),
    /// It releases the turn, and ends so.
    Releasing(PoolEnd),
}

/// A task on the free frames of a tier. It takes the turn of the tier, again while that answers Busy; scans the tier's words
/// and takes the least free frame, where more than the floor are free, or puts a frame back; and releases the turn.
#[derive(Clone, Copy, Debug, PartialEq, Eq)]
pub struct PoolTask {
    made: PoolMade,
    scan: Scanned,
    stage: Stage,
}

impl PoolTask {
    /// Takes the least free frame of a tier, where more than `floor` are free. Condition: the tier exists. Where it begins
    /// the view holds no turn.
    pub fn take(g: &Geometry, tier: u32, floor: u32) -> PoolTask
        requires { tier < length g.now.tiers }
        ensures made { made_of result ≡ pool_made g.now (PoolJob.Take tier floor) }
        ensures new { IsNewPool result }
    {
        PoolTask::of(g, PoolJob::Take { tier, floor }, tier)
    }

    /// Counts the free frames of a tier. Condition: the tier exists. Where it begins the view holds no turn.
    pub fn level(g: &Geometry, tier: u32) -> PoolTask
        requires { tier < length g.now.tiers }
        ensures made { made_of result ≡ pool_made g.now (PoolJob.Level tier) }
        ensures new { IsNewPool result }
    {
        PoolTask::of(g, PoolJob::Level { tier }, tier)
    }

    /// Puts a frame back. Condition: the frame exists. Where it begins the view owns the frame, and holds no turn.
    pub fn give_back(g: &Geometry, frame: u32) -> PoolTask
        requires { frame < frame_count g.now }
        ensures made { made_of result ≡ pool_made g.now (PoolJob.Back frame) }
        ensures new { IsNewPool result }
    {
        PoolTask::of(g, PoolJob::Back { frame }, g.tier_of(frame))
    }

    /// A task with this job, at the job's tier.
    fn of(g: &Geometry, job: PoolJob, tier: u32) -> PoolTask
        requires exists { tier < length g.now.tiers }
        requires tier { tier ≡ tier_for g.now job }
        ensures made { made_of result ≡ pool_made g.now job }
        ensures new { IsNewPool result }
    {
        PoolTask {
            made: PoolMade {
                job,
                tier,
                base: g.first_frame(tier),
                words: g.free_words(tier),
            },
            scan: Scanned {
                words: 0,
                sum: 0,
                least: None,
            },
            stage: Stage::New,
        }
    }

    /// Comes to a stage, and gives its action.
    fn go(&mut self, stage: Stage) -> Action
        ensures stage { self.new ≡ record self.old { stage = stage } }
        ensures action { result ≡ action_at self.old.made self.old.scan stage }
    {
        self.stage = stage;
        let tier = self.made.tier;
        match stage {
            Stage::New | Stage::Turning => Action::TakeTurn { tier },
            Stage::Scanning => Action::Scan {
                tier,
                index: self.scan.words,
            },
            Stage::Giving(frame) => Action::GiveFrame { frame },
            Stage::Putting(frame) => Action::PutFrame { frame },
            Stage::Releasing(_) => Action::ReleaseTurn { tier },
        }
    }

    /// The stage under the turn, after what was scanned so far.
    fn next_stage(&self) -> Stage
        ensures { result ≡ next_stage self.now.made self.now.scan }
    {
        let sum = self.scan.sum;
        let more = self.scan.words < self.made.words;
        match self.made.job {
            PoolJob::Back { frame } => Stage::Putting(frame),
            PoolJob::Level { .. } => if more {
                Stage::Scanning
            } else {
                Stage::Releasing(PoolEnd::Level(sum))
            },
            PoolJob::Take { floor, .. } => if more {
                Stage::Scanning
            } else {
                taking(floor, sum, self.scan.least)
            },
        }
    }

    /// Comes to the next stage under the turn, and gives its action.
    fn go_on(&mut self) -> Action
        ensures stage { self.new ≡ record self.old { stage = next_stage self.old.made self.old.scan } }
        ensures action { result ≡ action_at self.old.made self.old.scan (next_stage self.old.made self.old.scan) }
    {
        let stage = self.next_stage();
        self.go(stage)
    }

    /// What was scanned, after one word more.
    fn scanned(&self, word: u64) -> Scanned
        requires base { self.now.made.base + 64 * self.now.scan.words + 64 < 2 ^ 32 }
        requires words { self.now.scan.words + 1 < 2 ^ 32 }
        requires sum { self.now.scan.sum + count_ones word < 2 ^ 32 }
        ensures { result ≡ scanned_word (self.now.made.base + 64 * self.now.scan.words) word self.now.scan }
    {
        scanned_word(self.made.base + 64 * self.scan.words, word, self.scan)
    }
}

/// The stage after the whole tier was scanned, for a frame to be taken.
fn taking(floor: u32, sum: u32, least: Option<u32>) -> Stage
    ensures { result ≡ taking floor sum least }
{
    match least {
        Some(frame) => if floor < sum {
            Stage::Giving(frame)
        } else {
            Stage::Releasing(PoolEnd::AtFloor(sum))
        },
        None => Stage::Releasing(PoolEnd::AtFloor(sum)),
    }
}

impl Part for PoolTask {
    type Outcome = PoolEnd;

    type Made = PoolMade;

    ghost use Rattle.nm_part.specs.Parts.{NothingTold};
    ghost use Rattle.nm_pool.specs.Pool.{IsPool};
    ghost use Rattle.nm_pool.specs.Given.{MayBegin, Leaves};
    ghost use Rattle.nm_pool.specs.Stages.{made_of, IsNewPool, AwaitsPool};

    ghost made = { made_of };

    ghost is_new = { IsNewPool };

    ghost may_begin = { MayBegin };

    ghost shape = { λ made g own end. IsPool g made.job own end };

    ghost leaves = { λ made g view end left. Leaves g made.job view end left };

    ghost awaits = { AwaitsPool };

    ghost ended = { λ task. NothingTold };

    fn first(&mut self) -> Step<PoolEnd> {
        Step::Do(self.start())
    }

    fn after(&mut self, reply: Reply) -> Step<PoolEnd> {
        match self.stage {
            Stage::New => unreachable!(),
            Stage::Turning => match reply {
                Reply::Busy(_) => Step::Do(self.go(Stage::Turning)),
                Reply::Done => Step::Do(self.go_on()),
                Reply::Word(_) | Reply::Lost(_) => unreachable!(),
            },
            Stage::Scanning => {
                let Reply::Word(word) = reply else {
                    unreachable!()
                };
                self.scan = self.scanned(word);
                Step::Do(self.go_on())
            }
            Stage::Giving(frame) => Step::Do(self.go(Stage::Releasing(PoolEnd::Got(frame)))),
            Stage::Putting(_) => Step::Do(self.go(Stage::Releasing(PoolEnd::Back))),
            Stage::Releasing(end) => Step::Over(end),
        }
    }
}

impl Piece for PoolTask {
    fn start(&mut self) -> Action {
        self.go(Stage::Turning)
    }
}
