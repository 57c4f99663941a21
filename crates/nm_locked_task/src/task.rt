//! The locked move as a part of an actor's work.

ghost use Rattle.std.specs.Prelude.{◌≡◌, IfOk};
ghost use Rattle.nm_locked_task.specs.Tasks.{locked_task_made, IsIdleMove, IsNewMove};

use nm_base::Geometry;
use nm_event::{Action, Reply, Spent, Step};
use nm_locked::{ChooseMade, LockedEnd};
use nm_locked_run::LockedRun;
use nm_part::{Part, Piece};
use nm_transfer::TakenWords;
use std::alloc::{AllocError, Global};

/// A locked move of a page: the page is moved to the next faster tier while it is out of the table. It is begun once for each
/// move. It takes memory when it is made, for the words that a move takes, and none after that.
#[derive(Drop)]
pub struct LockedTask<'a> {
    geometry: &'a Geometry,
    made: ChooseMade,
    taken: Option<TakenWords>,
    run: Option<LockedRun<'a>>,
}

impl<'a> LockedTask<'a> {
    /// A task for locked moves of this geometry, which has no work yet. The only error is want of memory.
    pub fn new(alloc: Global, g: &'a Geometry) -> Result<LockedTask<'a>, AllocError>
        ensures geometry { IfOk result (λ t. t.geometry.now ≡ g.now) }
        ensures idle { IfOk result IsIdleMove }
    {
        Ok(LockedTask {
            geometry: g,
            made: ChooseMade {
                page: 0,
                count: 1,
                spent: Spent::default(),
            },
            taken: Some(TakenWords::with_room(alloc)?),
            run: None,
        })
    }

    /// Begins the move of a page of which so many virtual pages are to have table words, at least 1. Condition: the task has no
    /// work yet, or its earlier work is over. Where its first step is given the page is there, the view has no open operation
    /// and holds no turn, and `spent` is what the view has made.
    pub fn begin(&mut self, spent: Spent, page: u32, count: u32)
        requires { IsIdleMove self.old }
        ensures geometry { self.new.geometry.now ≡ self.old.geometry.now }
        ensures made { locked_task_made self.new ≡ (self.old.geometry.now, record { page = page; count = count; spent = spent }) }
        ensures new { IsNewMove ⟦<LockedRun<'a> as Part>⟧.is_new ⟦<LockedRun<'a> as Part>⟧.made (locked_task_made self.new) self.new.run }
    {
        let Some(taken) = self.taken.take() else {
            unreachable!()
        };
        self.made = ChooseMade { page, count, spent };
        self.run = Some(LockedRun::new(self.geometry, self.made, taken));
    }
}

impl<'a> Part for LockedTask<'a> {
    type Outcome = LockedEnd;

    type Made = (Geometry, ChooseMade);

    ghost use Rattle.nm_locked.specs.Chosen.{MayChoose};
    ghost use Rattle.nm_locked.specs.Moves.{IsLockedInMove};
    ghost use Rattle.nm_locked.specs.Leaving.{IsLockedLeft};
    ghost use Rattle.nm_locked_task.specs.Tasks.{locked_task_made, IsIdleMove, IsNewMove, AwaitsMove};

    ghost made = { locked_task_made };

    ghost is_new = { λ task. IsNewMove ⟦<LockedRun<'a> as Part>⟧.is_new ⟦<LockedRun<'a> as Part>⟧.made (locked_task_made task) task.run };

    ghost may_begin = { λ made g view. MayChoose made.0 made.1 g view };

    ghost shape = { λ made g own outcome. IsLockedInMove made.1 g own outcome };

    ghost leaves = { λ made g view outcome left. IsLockedLeft made.1 view outcome left };

    ghost awaits = { λ task. AwaitsMove ⟦<LockedRun<'a> as Part>⟧.awaits ⟦<LockedRun<'a> as Part>⟧.made (locked_task_made task) task.run };

    ghost ended = { λ task g own outcome. IsIdleMove task };

    fn first(&mut self) -> Step<LockedEnd> {
        Step::Do(self.start())
    }

    fn after(&mut self, reply: Reply) -> Step<LockedEnd> {
        let Some(run) = &mut self.run else {
            unreachable!()
        };
        match run.after(reply) {
            Step::Do(action) => Step::Do(action),
            Step::Over(over) => {
                self.run = None;
                self.taken = Some(over.taken);
                Step::Over(over.end)
            }
        }
    }
}

impl<'a> Piece for LockedTask<'a> {
    fn start(&mut self) -> Action {
        let Some(run) = &mut self.run else {
            unreachable!()
        };
        run.start()
    }
}
