//! The task of both faults.

ghost use Rattle.std.specs.Prelude.{◌≡◌, ◌-◌, ◌^◌, min};
ghost use Rattle.nm_base.specs.Geometry.{Geometry};
ghost use Rattle.nm_action.specs.declared.action.Action.{Action};
ghost use Rattle.nm_action.specs.Own.{Own};
ghost use Rattle.nm_view.specs.Views.{View};
ghost use Rattle.nm_compose.specs.declared.or.Or.{Or};
ghost use Rattle.nm_obtain.specs.Freed.{freed_inside};
ghost use Rattle.nm_shadow_fault.specs.declared.fault.FaultEnd.{FaultEnd};
ghost use Rattle.nm_fault.specs.Tasks.{fault_at, fault_in, either_end, IsNewFault, IsFaultAwaited, IsFaultEnded};
ghost use Rattle.nm_fault.specs.Waits.{is_waiting};

use crate::run::{MissingTask, ShadowTask};
use crate::wait::waits_after;
use nm_base::Geometry;
use nm_compose::Or;
use nm_event::{Action, Reply, Step};
use nm_obtain::FreedCount;
use nm_part::{Part, Piece};
use nm_shadow_fault::{FaultEnd, FaultMade};

/// A fault that runs: on a virtual page that is not mapped, or on one that is read-only for its shadow.
pub type FaultRun<'a> = Or<MissingTask<'a>, ShadowTask<'a>>;

/// A fault of a processor. It is begun once for each fault, and takes no memory.
#[derive(Drop)]
pub struct FaultTask<'a> {
    geometry: &'a Geometry,
    run: FaultRun<'a>,
    before: Option<(Action, Reply)>,
    given: Action,
    freed: FreedCount,
}

/// What a fault on a virtual page is made with (page 0 where it is not mapped, and no fault may begin).
fn fault_at(geometry: &Geometry, vpage: u32) -> FaultMade
    ensures { result ≡ fault_at geometry.now vpage }
{
    let page = match geometry.backing(vpage) {
        Some(page) => page,
        None => 0,
    };
    FaultMade { vpage, page }
}

/// How a fault ended, whichever it was.
fn either_end(end: Or<FaultEnd, FaultEnd>) -> FaultEnd
    ensures { result ≡ either_end end }
{
    match end {
        Or::This(end) => end,
        Or::Other(end) => end,
    }
}

impl<'a> FaultTask<'a> {
    /// A task for faults of this geometry. It is as one that was begun with a missing fault on virtual page 0.
    pub fn new(g: &'a Geometry) -> FaultTask<'a>
        ensures geometry { result.geometry.now ≡ g.now }
        ensures made { ⟦<FaultRun<'a> as Part>⟧.made result.run ≡ Or.This (record { 0 = g.now; 1 = fault_at g.now 0 }) }
        ensures new { IsNewFault (⟦<FaultRun<'a> as Part>⟧.is_new result.run) (fault_in (⟦<FaultRun<'a> as Part>⟧.made result.run)).1.page result }
    {
        let made = fault_at(g, 0);
        FaultTask {
            geometry: g,
            run: Or::This(MissingTask::new(g, made)),
            before: None,
            given: Action::Lock { page: made.page },
            freed: FreedCount::new(made.page),
        }
    }

    /// Begins the fault on a virtual page that is not mapped in the table. Where its first step is given the virtual page is
    /// mapped to a backing page, and the view has no open operation and holds no turn.
    pub fn begin_missing(&mut self, v: u32)
        ensures geometry { self.new.geometry.now ≡ self.old.geometry.now }
        ensures made { ⟦<FaultRun<'a> as Part>⟧.made self.new.run ≡ Or.This (record { 0 = self.old.geometry.now; 1 = fault_at self.old.geometry.now v }) }
        ensures new { IsNewFault (⟦<FaultRun<'a> as Part>⟧.is_new self.new.run) (fault_in (⟦<FaultRun<'a> as Part>⟧.made self.new.run)).1.page self.new }
    {
        let made = fault_at(self.geometry, v);
        self.run = Or::This(MissingTask::new(self.geometry, made));
        self.before = None;
        self.freed = FreedCount::new(made.page);
    }

    /// Begins the fault on a virtual page that is to be written and is read-only for its shadow. The conditions are those of
    /// a missing fault.
    pub fn begin_shadow(&mut self, v: u32)
        ensures geometry { self.new.geometry.now ≡ self.old.geometry.now }
        ensures made { ⟦<FaultRun<'a> as Part>⟧.made self.new.run ≡ Or.Other (record { 0 = self.old.geometry.now; 1 = fault_at self.old.geometry.now v }) }
        ensures new { IsNewFault (⟦<FaultRun<'a> as Part>⟧.is_new self.new.run) (fault_in (⟦<FaultRun<'a> as Part>⟧.made self.new.run)).1.page self.new }
    {
        let made = fault_at(self.geometry, v);
        self.run = Or::Other(ShadowTask::new(self.geometry, made));
        self.before = None;
        self.freed = FreedCount::new(made.page);
    }

    /// Whether the actor is to catch up before it makes the action that the task gave last: that is a Lock or a TakeTurn
    /// given again after Busy, or the first of a search for a frame that is made again.
    pub fn waits(&self) -> bool
        ensures { (g : Geometry) (view : View) (own : Own) (action : Action)
            → IsFaultAwaited (⟦<FaultRun<'a> as Part>⟧.awaits self.now.run) (fault_in (⟦<FaultRun<'a> as Part>⟧.made self.now.run)).1.page self.now g view own action
            → result ≡ is_waiting own action }
    {
        waits_after(self.before, self.given)
    }

    /// How many shadows were reclaimed in the search for a frame so far; a count that has reached 2^64 - 1 stays there.
    pub fn freed(&self) -> u64
        ensures running { (g : Geometry) (view : View) (own : Own) (action : Action)
            → IsFaultAwaited (⟦<FaultRun<'a> as Part>⟧.awaits self.now.run) (fault_in (⟦<FaultRun<'a> as Part>⟧.made self.now.run)).1.page self.now g view own action
            → result ≡ min (freed_inside (fault_in (⟦<FaultRun<'a> as Part>⟧.made self.now.run)).1.page own) (2 ^ 64 - 1) }
        ensures over { (own : Own) → IsFaultEnded (fault_in (⟦<FaultRun<'a> as Part>⟧.made self.now.run)).1.page self.now own
            → result ≡ min (freed_inside (fault_in (⟦<FaultRun<'a> as Part>⟧.made self.now.run)).1.page own) (2 ^ 64 - 1) }
    {
        self.freed.freed()
    }
}

impl<'a> Part for FaultTask<'a> {
    type Outcome = FaultEnd;

    // a missing fault, or one on a page that is read-only for its shadow
    type Made = Or<(Geometry, FaultMade), (Geometry, FaultMade)>;

    ghost use Rattle.nm_shadow_fault.specs.Granting.{MayFault, IsFaulted};
    ghost use Rattle.nm_fault.specs.Tasks.{fault_in, IsFault, IsNewFault, IsFaultAwaited, IsFaultEnded};

    ghost made = { λ t. ⟦<FaultRun<'a> as Part>⟧.made t.run };

    ghost is_new = { λ t. IsNewFault (⟦<FaultRun<'a> as Part>⟧.is_new t.run) (fault_in (⟦<FaultRun<'a> as Part>⟧.made t.run)).1.page t };

    ghost may_begin = { λ made g view. MayFault (fault_in made) g view };

    ghost shape = { λ made g own end. IsFault made g own end };

    ghost leaves = { λ made g view end left. IsFaulted view left };

    ghost awaits = { λ t. IsFaultAwaited (⟦<FaultRun<'a> as Part>⟧.awaits t.run) (fault_in (⟦<FaultRun<'a> as Part>⟧.made t.run)).1.page t };

    ghost ended = { λ t g own end. IsFaultEnded (fault_in (⟦<FaultRun<'a> as Part>⟧.made t.run)).1.page t own };

    fn first(&mut self) -> Step<FaultEnd> {
        Step::Do(self.start())
    }

    fn after(&mut self, reply: Reply) -> Step<FaultEnd> {
        self.freed.note(self.given);
        self.before = Some((self.given, reply));
        match self.run.after(reply) {
            Step::Do(action) => {
                self.given = action;
                Step::Do(action)
            }
            Step::Over(end) => Step::Over(either_end(end)),
        }
    }
}

impl<'a> Piece for FaultTask<'a> {
    fn start(&mut self) -> Action {
        self.given = self.run.start();
        self.given
    }
}
