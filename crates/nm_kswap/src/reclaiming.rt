//! What the reclaimer does after each of its tasks.

ghost use Rattle.std.specs.Prelude.{◌≡◌, ◌≢◌, ◌+◌, ◌<◌, ◌^◌, [], length, slice_index, None, IfOk};
ghost use Rattle.nm_base.specs.Geometry.{Geometry, IsGeometry};
ghost use Rattle.nm_vpages.specs.VPages.{vpages_of};
ghost use Rattle.nm_policy.specs.Watermarks.{watermarks_of};
ghost use Rattle.nm_view.specs.Views.{View};
ghost use Rattle.nm_view.specs.Opening.{opening};
ghost use Rattle.nm_transfer.specs.Stages.{HoldsWords};
ghost use Rattle.nm_part.specs.Patterns.{CanEnd};
ghost use Rattle.nm_worker.specs.Routines.{task_data, HasTaskOver, IsTaskOver, IsDrawn};
ghost use Rattle.nm_kswap.specs.Works.{reclaimer_work_made, IsNewReclaimerWork, IsReclaimerWork, ReclaimerWorkLeaves, ReclaimerWorkEnded};
ghost use Rattle.nm_kswap.specs.Ends.{frames_freed, demotion_counts, reclaimer_counts};
ghost use Rattle.nm_kswap.specs.Reclaiming.{marks_of, has_vpage, IsReclaiming};
ghost use Rattle.nm_kswap.specs.Parts.{reclaimer_number};
ghost use Rattle.nm_kswap.specs.Stages.{task_at, tier_stage, to_visit, going_on, words_after};
ghost use Rattle.nm_kswap.specs.Knowing.{AreHands, IsStageOf, HasWords, IsEndAt, IsAble, IsNewReclaiming, IsNewTask, KnowsReclaiming, ReclaimingLeft, GivesTask};

use crate::stage::{Kept, Stage, Visit};
use crate::work::{ReclaimerEnd, ReclaimerPiece, ask_work, demote_work, inspect_work, level_work};
use nm_base::Geometry;
use nm_compose::Or;
use nm_demote::DemoteEnd;
use nm_event::{Spent, Tally};
use nm_inspect::Inspected;
use nm_policy::{Watermarks, enough, wants_demotion};
use nm_pool::PoolEnd;
use nm_transfer::TakenWords;
use nm_vpages::VPageSet;
use nm_worker::{Ended, Routine, Task};
use std::alloc::{AllocError, Global};

/// The routine of the reclaimer: rounds in which the free frames of each tier but the last are counted, and where these are few,
/// pages that were not accessed are demoted.
#[derive(Drop)]
pub struct Reclaiming<'a> {
    geometry: &'a Geometry,
    kept: Kept,
    stage: Stage,
    /// The list for taken words, where no demotion has it.
    taken: Option<TakenWords>,
}

/// Whether some virtual page is mapped to a page.
fn has_vpage(g: &Geometry, page: u32) -> bool
    ensures { result ≡ has_vpage g.now page }
{
    !VPageSet::of_page(g, page).is_empty()
}

/// How many frames of its tier a demotion made free.
fn frames_freed(end: DemoteEnd) -> u32
    ensures { result ≡ frames_freed end }
{
    match end {
        DemoteEnd::Remapped | DemoteEnd::Copied => 1,
        DemoteEnd::NoFrame(_) | DemoteEnd::Gone | DemoteEnd::Worn | DemoteEnd::Busy => 0,
    }
}

/// What the end of a demotion counts.
fn demotion_counts(end: DemoteEnd) -> Tally
    ensures { result ≡ demotion_counts end }
{
    let none = Tally::default();
    match end {
        DemoteEnd::Remapped => Tally {
            remapped: 1,
            ..none
        },
        DemoteEnd::Copied => Tally { copied: 1, ..none },
        DemoteEnd::NoFrame(_) | DemoteEnd::Gone | DemoteEnd::Worn | DemoteEnd::Busy => none,
    }
}

/// The watermarks of a tier.
fn marks_of(g: &Geometry, tier: u32) -> Watermarks
    requires geometry { IsGeometry g.now }
    requires tier { tier < length g.now.tiers }
    ensures { result ≡ marks_of g.now tier }
{
    Watermarks::of(g.tiers[tier as usize])
}

/// Where a round goes on with the tiers from this one on.
fn tier_stage(g: &Geometry, last: bool, tier: u32) -> Stage
    requires { tier + 1 < 2 ^ 32 }
    ensures { result ≡ tier_stage g.now last tier }
{
    if ((tier + 1) as usize) < g.tiers.len() {
        Stage::Counting { last, tier }
    } else if last {
        Stage::Over
    } else {
        Stage::Asking
    }
}

/// Where it goes on with so many visits at most by a tier of this counted level. The hand of the tier goes on.
fn to_visit(g: &Geometry, kept: &mut Kept, last: bool, tier: u32, level: u32, left: u32) -> Stage
    requires geometry { IsGeometry g.now }
    requires tier { tier + 1 < length g.now.tiers }
    requires hands { AreHands g.now kept.old.hands }
    ensures stage { result ≡ (to_visit g.now last tier level left kept.old).stage }
    ensures kept { kept.new ≡ (to_visit g.now last tier level left kept.old).kept }
{
    if enough(level, marks_of(g, tier)) {
        return tier_stage(g, last, tier + 1);
    }
    let place = tier as usize;
    let mut left = left;
    while left > 0 {
        left -= 1;
        let page = kept.hands[place];
        kept.hands[place] = (page + 1) % g.pages();
        if has_vpage(g, page) {
            return Stage::Inspecting(Visit {
                last,
                tier,
                level,
                page,
                left,
            });
        }
    }
    tier_stage(g, last, tier + 1)
}

impl<'a> Reclaiming<'a> {
    /// The routine of a geometry's reclaimer, with room for the words that a demotion takes. The only error is want of memory.
    pub fn new(alloc: Global, g: &'a Geometry) -> Result<Reclaiming<'a>, AllocError>
        ensures geometry { IfOk result (λ r. r.geometry.now ≡ g.now) }
        ensures new { IfOk result IsNewReclaiming }
    {
        // What a geometry keeps is part of the reasons.
        prove!(g.cpus <= 16);
        Ok(Reclaiming {
            geometry: g,
            kept: Kept {
                hands: [0; 3],
                spent: Spent::default(),
            },
            stage: Stage::New,
            taken: Some(TakenWords::with_room(alloc)?),
        })
    }

    /// Where it goes on after the piece of its stage, which has ended so.
    fn going_on(&mut self, end: ReclaimerEnd) -> Stage
        requires geometry { IsGeometry self.old.geometry.now }
        requires able { IsAble self.old }
        requires kind { IsEndAt self.old.stage end }
        ensures stage { result ≡ (going_on self.old.geometry.now self.old.kept self.old.stage end).stage }
        ensures kept { self.new.kept ≡ (going_on self.old.geometry.now self.old.kept self.old.stage end).kept }
        ensures words { self.new.taken ≡ words_after self.old.stage end self.old.taken }
        ensures geometry { self.new.geometry.now ≡ self.old.geometry.now }
    {
        let g = self.geometry;
        match self.stage {
            Stage::New | Stage::Over => unreachable!(),
            Stage::Asking => {
                let Or::This(all) = end else { unreachable!() };
                tier_stage(g, all, 0)
            }
            Stage::Counting { last, tier } => {
                let Or::Other(end) = end else { unreachable!() };
                let Or::This(end) = end else { unreachable!() };
                let PoolEnd::Level(level) = end else {
                    unreachable!()
                };
                if wants_demotion(level, marks_of(g, tier)) {
                    to_visit(g, &mut self.kept, last, tier, level, g.pages())
                } else {
                    tier_stage(g, last, tier + 1)
                }
            }
            Stage::Inspecting(visit) => {
                let Or::Other(end) = end else { unreachable!() };
                let Or::Other(end) = end else { unreachable!() };
                let Or::This(found) = end else { unreachable!() };
                match found {
                    Inspected::Elsewhere | Inspected::InUse => to_visit(
                        g,
                        &mut self.kept,
                        visit.last,
                        visit.tier,
                        visit.level,
                        visit.left,
                    ),
                    Inspected::Idle => Stage::Demoting(visit),
                }
            }
            Stage::Demoting(visit) => {
                let Or::Other(end) = end else { unreachable!() };
                let Or::Other(end) = end else { unreachable!() };
                let Or::Other(told) = end else { unreachable!() };
                self.kept.spent = told.spent;
                let over = told.end;
                let level = visit.level + frames_freed(over.end);
                self.taken = Some(over.taken);
                to_visit(g, &mut self.kept, visit.last, visit.tier, level, visit.left)
            }
        }
    }

    /// Comes to a stage, and gives its task.
    fn go(&mut self, stage: Stage) -> Task<ReclaimerPiece<'a>>
        requires stage { IsStageOf self.old.geometry.now stage }
        requires words { HoldsWords self.old.taken }
        ensures geometry { self.new.geometry.now ≡ self.old.geometry.now }
        ensures kept { self.new.kept ≡ self.old.kept }
        ensures stage { self.new.stage ≡ stage }
        ensures words { HasWords stage self.new.taken }
        ensures made { task_data reclaimer_work_made result ≡ task_at self.old.geometry.now self.old.kept stage }
        ensures new { IsNewTask IsNewReclaimerWork result }
    {
        let g = self.geometry;
        self.stage = stage;
        match stage {
            Stage::New | Stage::Over => Task::Stop,
            Stage::Asking => Task::Run(ask_work(g)),
            Stage::Counting { tier, .. } => Task::Run(level_work(g, tier)),
            Stage::Inspecting(visit) => Task::Run(inspect_work(g, visit.page, visit.tier)),
            Stage::Demoting(visit) => {
                let Some(taken) = self.taken.take() else {
                    unreachable!()
                };
                Task::Run(demote_work(g, visit.page, self.kept.spent, taken))
            }
        }
    }
}

impl<'a> Routine<ReclaimerPiece<'a>> for Reclaiming<'a> {
    type Made = Geometry;

    ghost use Rattle.std.specs.Prelude.{◌≡◌};
    ghost use Rattle.nm_kswap.specs.Ends.{reclaimer_counts};
    ghost use Rattle.nm_kswap.specs.Reclaiming.{IsReclaiming};
    ghost use Rattle.nm_kswap.specs.Knowing.{IsNewReclaiming, KnowsReclaiming, ReclaimingLeft};
    ghost use Rattle.nm_kswap.specs.Parts.{reclaimer_number};

    ghost made = { λ r. r.geometry.now };

    ghost Outcome = { Unit {0} };

    ghost stop = { λ r. tt };

    ghost geometry = { λ g. g };

    ghost number = { reclaimer_number };

    ghost is_new = { IsNewReclaiming };

    ghost shape = { IsReclaiming };

    ghost counts = { reclaimer_counts };

    ghost knows = { KnowsReclaiming };

    ghost left = { ReclaimingLeft };

    fn begin(&mut self) -> Task<ReclaimerPiece<'a>>
        requires { IsNewReclaiming self.old }
        ensures made { self.new.geometry.now ≡ self.old.geometry.now }
        ensures can { CanEnd (IsReclaiming self.old.geometry.now) }
        ensures next { GivesTask IsNewReclaimerWork self.new result (IsReclaiming self.old.geometry.now) self.old.geometry.now (opening self.old.geometry.now (reclaimer_number self.old.geometry.now)) }
    {
        self.go(Stage::Asking)
    }

    fn go_on(
        &mut self,
        _task: &Task<ReclaimerPiece<'a>>,
        end: Ended<ReclaimerEnd>,
        _spent: Spent,
    ) -> Task<ReclaimerPiece<'a>>
        requires { HasTaskOver reclaimer_work_made IsReclaimerWork ReclaimerWorkLeaves ReclaimerWorkEnded (KnowsReclaiming self.old) self.old.geometry.now _task.now end _spent }
        ensures made { self.new.geometry.now ≡ self.old.geometry.now }
        ensures next { (now later : View) → KnowsReclaiming self.old now (task_data reclaimer_work_made _task.now)
            → IsTaskOver reclaimer_work_made IsReclaimerWork ReclaimerWorkLeaves ReclaimerWorkEnded self.old.geometry.now now later _task.now end → IsDrawn _spent later
            → GivesTask IsNewReclaimerWork self.new result (ReclaimingLeft self.old end) self.old.geometry.now later }
    {
        let Ended::Run(end) = end else { unreachable!() };
        let stage = self.going_on(end);
        self.go(stage)
    }

    fn counts(end: &ReclaimerEnd) -> Tally
        ensures { result ≡ reclaimer_counts end.now }
    {
        let Or::Other(end) = end else {
            return Tally::default();
        };
        let Or::Other(end) = end else {
            return Tally::default();
        };
        match end {
            Or::This(_) => Tally::default(),
            Or::Other(told) => demotion_counts(told.end.end),
        }
    }
}
