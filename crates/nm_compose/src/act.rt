//! A single action as a part.

ghost use Rattle.std.specs.Prelude.{◌≡◌};

use nm_event::{Action, Reply, Step};
use nm_part::{Part, Piece};

/// Makes one action, and ends with the reply to it.
#[derive(Clone, Copy, Debug, PartialEq, Eq)]
pub struct Act {
    action: Action,
}

impl Act {
    /// The part that makes this action. Where it begins the action is quiet, and the view permits it.
    pub fn new(action: Action) -> Act
        ensures { result.action ≡ action }
    {
        Act { action }
    }
}

impl Part for Act {
    type Outcome = Reply;

    type Made = Action;

    ghost use Rattle.nm_part.specs.Parts.{NothingTold};
    ghost use Rattle.nm_compose.specs.Acts.{MayAct, IsAct, IsActed, AwaitsAct};

    ghost made = { λ p. p.action };

    // it keeps nothing of whether it gave its action
    ghost is_new = { λ p. Unit {0} };

    ghost may_begin = { λ action g view. MayAct g view action };

    ghost shape = { IsAct };

    ghost leaves = { λ action g view reply left. IsActed g view action reply left };

    ghost awaits = { AwaitsAct };

    ghost ended = { λ p g own reply. NothingTold g own reply };

    fn first(&mut self) -> Step<Reply> {
        Step::Do(self.start())
    }

    fn after(&mut self, reply: Reply) -> Step<Reply> {
        Step::Over(reply)
    }
}

impl Piece for Act {
    fn start(&mut self) -> Action {
        self.action
    }
}
