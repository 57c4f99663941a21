//! A piece of work that counts what it draws.

ghost use Rattle.std.specs.Prelude.{◌≡◌};
ghost use Rattle.nm_action.specs.Spent.{counted};
ghost use Rattle.nm_drawing.specs.Draws.{MayCount};

use nm_event::{Action, Reply, Spent, Step};
use nm_part::{Part, Piece};

/// How a piece of work ended, and what the actor had drawn then.
#[derive(Clone, Copy, Debug, PartialEq, Eq, Drop)]
pub struct Drawn<X> {
    /// How the piece ended.
    pub end: X,
    /// The bumps and raises that the actor had made.
    pub spent: Spent,
}

/// Runs a piece of work, and counts the bumps and raises of the actor on.
#[derive(Drop)]
pub struct Drawing<P> {
    piece: P,
    /// What was drawn when it began.
    begun: Spent,
    /// What is drawn so far.
    spent: Spent,
    /// The action that awaits its answer.
    action: Action,
}

/// What is drawn after one action more. Condition: a count that rises is not 2^64 - 1.
fn count(action: Action, spent: Spent) -> Spent
    requires { MayCount action spent }
    ensures { result ≡ counted action spent }
{
    match action {
        Action::Bump => Spent {
            bumps: spent.bumps + 1,
            ..spent
        },
        Action::Raise { .. } => Spent {
            raises: spent.raises + 1,
            ..spent
        },
        _ => spent,
    }
}

impl<P: Piece> Drawing<P> {
    /// This piece, by an actor that has drawn so much. Where it begins `spent` is what the view has made.
    pub fn new(piece: P, spent: Spent) -> Drawing<P>
        ensures piece { result.piece ≡ piece }
        ensures begun { result.begun ≡ spent }
        ensures spent { result.spent ≡ spent }
    {
        Drawing {
            piece,
            begun: spent,
            spent,
            action: Action::Poll,
        }
    }

    /// Its piece, which can be asked once the part is over.
    pub fn piece(&self) -> &P
        ensures { result.now ≡ self.now.piece }
    {
        &self.piece
    }
}

impl<P: Piece> Part for Drawing<P> {
    type Outcome = Drawn<P::Outcome>;

    type Made = (P::Made, Spent);

    ghost use Rattle.nm_drawing.specs.Draws.{IsNewDrawing, MayDraw, IsDrawingList, IsDrawnLeft, AwaitsDrawing};

    ghost made = { λ d. record { 0 = P.made d.piece; 1 = d.begun } };

    ghost is_new = { λ d. IsNewDrawing (P.is_new d.piece) d.begun d.spent };

    ghost may_begin = { λ made g view. MayDraw (P.may_begin made.0 g view) made.1 view };

    ghost shape = { λ made g own told. IsDrawingList (P.shape made.0 g own) made.1 own told };

    ghost leaves = { λ made g view told left. IsDrawnLeft (λ end. P.leaves made.0 g view end left) left told };

    ghost awaits = { λ d g view own action. AwaitsDrawing (P.awaits d.piece g view own action) d.action d.begun d.spent g view own action };

    ghost ended = { λ d g own told. P.ended d.piece g own told.end };

    fn first(&mut self) -> Step<Drawn<P::Outcome>> {
        Step::Do(self.start())
    }

    fn after(&mut self, reply: Reply) -> Step<Drawn<P::Outcome>> {
        self.spent = count(self.action, self.spent);
        match self.piece.after(reply) {
            Step::Do(action) => {
                self.action = action;
                Step::Do(action)
            }
            Step::Over(end) => Step::Over(Drawn {
                end,
                spent: self.spent,
            }),
        }
    }
}

impl<P: Piece> Piece for Drawing<P> {
    fn start(&mut self) -> Action {
        let action = self.piece.start();
        self.action = action;
        action
    }
}
