//! A choice of pieces.

ghost use Rattle.std.specs.Prelude.{◌≡◌};
ghost use Rattle.nm_compose.specs.Choices.{this_step, other_step};

use nm_event::{Action, Reply, Step};
use nm_part::{Part, Piece};

/// One of two: a piece of either kind, what it was made with, or what it ended with.
#[derive(Clone, Copy, Debug, PartialEq, Eq, Drop)]
pub enum Or<A, B> {
    /// The first.
    This(A),
    /// The other.
    Other(B),
}

impl<A: Part, B: Part> Part for Or<A, B> {
    type Outcome = Or<A::Outcome, B::Outcome>;

    type Made = Or<A::Made, B::Made>;

    ghost use Rattle.nm_compose.specs.Choices.{or_made, IsNewOr, MayBeginOr, IsOr, LeavesOr, AwaitsOr, EndedOr};

    ghost made = { or_made A.made B.made };

    ghost is_new = { IsNewOr A.is_new B.is_new };

    ghost may_begin = { MayBeginOr A.may_begin B.may_begin };

    ghost shape = { IsOr A.shape B.shape };

    ghost leaves = { LeavesOr A.leaves B.leaves };

    ghost awaits = { AwaitsOr A.awaits B.awaits };

    ghost ended = { EndedOr A.ended B.ended };

    fn first(&mut self) -> Step<Or<A::Outcome, B::Outcome>> {
        match self {
            Or::This(a) => this(a.first()),
            Or::Other(b) => other(b.first()),
        }
    }

    fn after(&mut self, reply: Reply) -> Step<Or<A::Outcome, B::Outcome>> {
        match self {
            Or::This(a) => this(a.after(reply)),
            Or::Other(b) => other(b.after(reply)),
        }
    }
}

impl<A: Piece, B: Piece> Piece for Or<A, B> {
    fn start(&mut self) -> Action {
        match self {
            Or::This(a) => a.start(),
            Or::Other(b) => b.start(),
        }
    }
}

/// The step of a piece of the first kind.
fn this<A, B>(step: Step<A>) -> Step<Or<A, B>>
    ensures { result ≡ this_step step }
{
    match step {
        Step::Do(action) => Step::Do(action),
        Step::Over(outcome) => Step::Over(Or::This(outcome)),
    }
}

/// The step of a piece of the other kind.
fn other<A, B>(step: Step<B>) -> Step<Or<A, B>>
    ensures { result ≡ other_step step }
{
    match step {
        Step::Do(action) => Step::Do(action),
        Step::Over(outcome) => Step::Over(Or::Other(outcome)),
    }
}
