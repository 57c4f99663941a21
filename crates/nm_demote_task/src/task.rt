//! The demotion as a part of an actor's work.

ghost use Rattle.std.specs.Prelude.{◌≡◌, ◌-◌, ◌^◌, min, IfOk};
ghost use Rattle.nm_action.specs.Own.{Own};
ghost use Rattle.nm_obtain.specs.Freed.{freed_inside};
ghost use Rattle.nm_demote_task.specs.Tasks.{demote_task_made, IsDemoteIdle, IsNewDemotion, CountsFreed};

use nm_base::Geometry;
use nm_demote::{DemoteEnd, DemoteMade};
use nm_demote_run::DemoteRun;
use nm_event::{Action, Reply, Spent, Step};
use nm_obtain::FreedCount;
use nm_part::{Part, Piece};
use nm_transfer::TakenWords;
use std::alloc::{AllocError, Global};

/// A demotion of a page: it is moved to a slower tier while it is out of the table, by its shadow where it has one. It is
/// begun once for each demotion. It takes memory when it is made, for the words that a demotion takes, and none after that.
#[derive(Drop)]
pub struct DemoteTask<'a> {
    geometry: &'a Geometry,
    made: DemoteMade,
    taken: Option<TakenWords>,
    run: Option<DemoteRun<'a>>,
    given: Action,
    freed: FreedCount,
}

impl<'a> DemoteTask<'a> {
    /// A task for demotions of this geometry, which has no work yet. The only error is want of memory.
    pub fn new(alloc: Global, g: &'a Geometry) -> Result<DemoteTask<'a>, AllocError>
        ensures geometry { IfOk result (λ t. t.geometry.now ≡ g.now) }
        ensures idle { IfOk result IsDemoteIdle }
    {
        Ok(DemoteTask {
            geometry: g,
            made: DemoteMade {
                page: 0,
                spent: Spent::default(),
            },
            taken: Some(TakenWords::with_room(alloc)?),
            run: None,
            given: Action::Lock { page: 0 },
            freed: FreedCount::new(0),
        })
    }

    /// Begins the demotion of a page. Condition: the task has no work yet, or its earlier work is over. Where its first step is
    /// given the page is there, the view has no open operation and holds no turn, and `spent` is what the view has made.
    pub fn begin(&mut self, spent: Spent, page: u32)
        requires { IsDemoteIdle self.old }
        ensures geometry { self.new.geometry.now ≡ self.old.geometry.now }
        ensures made { demote_task_made self.new ≡ (self.old.geometry.now, record { page = page; spent = spent }) }
        ensures new { IsNewDemotion ⟦<DemoteRun<'a> as Part>⟧.is_new ⟦<DemoteRun<'a> as Part>⟧.made self.new }
    {
        let Some(taken) = self.taken.take() else {
            unreachable!()
        };
        self.made = DemoteMade { page, spent };
        self.freed = FreedCount::new(page);
        self.run = Some(DemoteRun::new(self.geometry, page, spent, taken));
    }

    /// How many shadows were reclaimed in the search for a frame so far, by the own list since the work began; a count that
    /// has reached 2^64 - 1 stays there.
    pub fn freed(&self) -> u64
        ensures { (own : Own) → CountsFreed self.now own → result ≡ min (freed_inside self.now.made.page own) (2 ^ 64 - 1) }
    {
        self.freed.freed()
    }
}

impl<'a> Part for DemoteTask<'a> {
    type Outcome = DemoteEnd;

    type Made = (Geometry, DemoteMade);

    ghost use Rattle.nm_demote.specs.Selections.{MayDemote};
    ghost use Rattle.nm_demote.specs.Demotions.{IsDemotion};
    ghost use Rattle.nm_demote.specs.Leaving.{IsDemoteLeft};
    ghost use Rattle.nm_demote_task.specs.Tasks.{demote_task_made, IsNewDemotion, IsDemotionAwaited, IsDemotionEnded};

    ghost made = { demote_task_made };

    ghost is_new = { IsNewDemotion ⟦<DemoteRun<'a> as Part>⟧.is_new ⟦<DemoteRun<'a> as Part>⟧.made };

    ghost may_begin = { λ made g view. MayDemote made.0 made.1 g view };

    ghost shape = { λ made g own outcome. IsDemotion made.1 g own outcome };

    ghost leaves = { λ made g view outcome left. IsDemoteLeft made.1 view outcome left };

    ghost awaits = { IsDemotionAwaited ⟦<DemoteRun<'a> as Part>⟧.awaits ⟦<DemoteRun<'a> as Part>⟧.made };

    ghost ended = { λ task g own outcome. IsDemotionEnded task own };

    fn first(&mut self) -> Step<DemoteEnd> {
        Step::Do(self.start())
    }

    fn after(&mut self, reply: Reply) -> Step<DemoteEnd> {
        self.freed.note(self.given);
        let Some(run) = &mut self.run else {
            unreachable!()
        };
        match run.after(reply) {
            Step::Do(action) => {
                self.given = action;
                Step::Do(action)
            }
            Step::Over(over) => {
                self.run = None;
                self.taken = Some(over.taken);
                Step::Over(over.end)
            }
        }
    }
}

impl<'a> Piece for DemoteTask<'a> {
    fn start(&mut self) -> Action {
        let Some(run) = &mut self.run else {
            unreachable!()
        };
        let action = run.start();
        self.given = action;
        action
    }
}
