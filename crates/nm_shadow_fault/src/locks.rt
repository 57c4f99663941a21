//! A page is locked, again while it is busy.

ghost use Rattle.std.specs.Prelude.{◌≡◌};

use nm_event::{Action, Reply, Step};
use nm_part::{Part, Piece};

/// Locks a page, again while that answers Busy.
#[derive(Clone, Copy, Debug, PartialEq, Eq)]
pub struct Locks {
    page: u32,
}

impl Locks {
    /// The part that locks this page. Where it begins the page is there, and may be locked.
    pub fn new(page: u32) -> Locks
        ensures { result.page ≡ page }
    {
        Locks { page }
    }
}

impl Part for Locks {
    /// It ends with nothing but that the page is locked.
    type Outcome = ();

    type Made = u32;

    ghost use Rattle.nm_part.specs.Parts.{NothingTold};
    ghost use Rattle.nm_shadow_fault.specs.Locking.{LocksPage, MayLocks, LeavesLocked, AwaitsLock};

    ghost made = { λ p. p.page };

    // it keeps nothing of whether it gave an action
    ghost is_new = { λ p. Unit {0} };

    ghost may_begin = { MayLocks };

    ghost shape = { λ page g. LocksPage page };

    ghost leaves = { λ page g view end left. LeavesLocked page view left };

    ghost awaits = { λ p g view own action. AwaitsLock p.page g view own action };

    ghost ended = { λ p g own end. NothingTold g own end };

    fn first(&mut self) -> Step<()> {
        Step::Do(self.start())
    }

    fn after(&mut self, reply: Reply) -> Step<()> {
        match reply {
            Reply::Busy(_) => Step::Do(Action::Lock { page: self.page }),
            Reply::Done => Step::Over(()),
            Reply::Word(_) | Reply::Lost(_) => unreachable!(),
        }
    }
}

impl Piece for Locks {
    fn start(&mut self) -> Action {
        Action::Lock { page: self.page }
    }
}
