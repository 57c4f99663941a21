//! A part that runs one piece after the other, as its plan says.

ghost use Rattle.std.specs.Prelude.{◌≡◌, ◌++◌};
ghost use Rattle.nm_base.specs.Geometry.{Geometry};
ghost use Rattle.nm_view.specs.Views.{View};
ghost use Rattle.nm_action.specs.Own.{Own};
ghost use Rattle.nm_event.specs.After.{view_after};
ghost use Rattle.nm_part.specs.Parts.{IsPartStep};
ghost use Rattle.nm_part.specs.Patterns.{IsLeft};
ghost use Rattle.nm_compose.specs.Plans.{HasEnded};
ghost use Rattle.nm_compose.specs.Composites.{HasFirst, IsRunning};

use crate::plan::{Next, Plan};
use nm_event::{Action, Reply, Step};
use nm_part::{Part, Piece};

/// The part that a plan makes of its pieces: it is the piece that runs, and where that is over, the one that the plan gives
/// next, or over as the plan says.
#[derive(Drop)]
pub struct Composite<L, P> {
    plan: L,
    piece: P,
}

impl<P: Piece + Drop, L: Plan<P> + Drop> Composite<L, P> {
    /// The part that this plan makes. Condition: the plan has given no piece yet.
    pub fn new(plan: L) -> Composite<L, P>
        requires { L.is_new plan }
        ensures made { L.made result.plan ≡ L.made plan }
        ensures new { HasFirst P.made P.is_new P.may_begin P.shape (L.knows result.plan) (L.left result.plan) L.may_begin L.shape (L.made result.plan) result.piece }
    {
        let mut plan = plan;
        let piece = plan.begin();
        Composite { plan, piece }
    }

    /// Its plan, which can be asked once the part is over.
    pub fn plan(&self) -> &L
        ensures { result.now ≡ self.now.plan }
    {
        &self.plan
    }

    /// The step after its piece, which has ended so.
    fn go_on(&mut self, end: P::Outcome) -> Step<L::Outcome>
        requires { HasEnded P.shape P.leaves (P.ended self.old.piece) (L.knows self.old.plan) (P.made self.old.piece) end }
        ensures made { L.made self.new.plan ≡ L.made self.old.plan }
        ensures step { (g : Geometry) (view now : View) (own inner : Own)
            → L.knows self.old.plan g view now (P.made self.old.piece) → P.shape (P.made self.old.piece) g inner end → P.leaves (P.made self.old.piece) g now end (view_after g view own) → P.ended self.old.piece g inner end
            → IsLeft (L.shape (L.made self.old.plan) g) own (L.left self.old.plan g end)
            → IsPartStep (IsRunning P.shape (P.awaits self.new.piece) (L.knows self.new.plan) (L.left self.new.plan) (L.shape (L.made self.old.plan)) (P.made self.new.piece))
            (L.shape (L.made self.old.plan)) (L.leaves (L.made self.old.plan)) (λ g own outcome. L.ended self.new.plan g outcome) g view own result }
    {
        match self.plan.go_on(&self.piece, end) {
            Next::Over(outcome) => Step::Over(outcome),
            Next::Run(piece) => {
                self.piece = piece;
                Step::Do(self.piece.start())
            }
        }
    }
}

impl<P: Piece + Drop, L: Plan<P> + Drop> Part for Composite<L, P> {
    type Outcome = L::Outcome;

    type Made = L::Made;

    ghost use Rattle.nm_compose.specs.Composites.{HasFirst, IsRunning};

    ghost made = { λ c. L.made c.plan };

    ghost is_new = { λ c. HasFirst P.made P.is_new P.may_begin P.shape (L.knows c.plan) (L.left c.plan) L.may_begin L.shape (L.made c.plan) c.piece };

    ghost may_begin = { L.may_begin };

    ghost shape = { L.shape };

    ghost leaves = { L.leaves };

    ghost awaits = { λ c. IsRunning P.shape (P.awaits c.piece) (L.knows c.plan) (L.left c.plan) (L.shape (L.made c.plan)) (P.made c.piece) };

    ghost ended = { λ c g own outcome. L.ended c.plan g outcome };

    fn first(&mut self) -> Step<L::Outcome> {
        Step::Do(self.start())
    }

    fn after(&mut self, reply: Reply) -> Step<L::Outcome> {
        match self.piece.after(reply) {
            Step::Do(action) => Step::Do(action),
            Step::Over(end) => self.go_on(end),
        }
    }
}

impl<P: Piece + Drop, L: Plan<P> + Drop> Piece for Composite<L, P> {
    fn start(&mut self) -> Action {
        self.piece.start()
    }
}
