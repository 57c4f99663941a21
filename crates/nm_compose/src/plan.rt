//! What a composite does after each of its pieces.

use nm_part::Part;

/// What a composite does next.
#[derive(Drop)]
pub enum Next<P, O> {
    /// It runs this piece, which has given no action yet.
    Run(P),
    /// It is over, with this outcome.
    Over(O),
}

/// The plan of a composite: which piece it begins with, and what it does after a piece, by how that ended. A plan sees no
/// view either; contracts follow the view in which the composite began, and the present one.
pub trait Plan<P: Part> {
    ghost use Rattle.std.specs.Prelude.{◌≡◌};
    ghost use Rattle.nm_base.specs.Geometry.{Geometry};
    ghost use Rattle.nm_view.specs.Views.{View};
    ghost use Rattle.nm_action.specs.Own.{Own};
    ghost use Rattle.nm_compose.specs.Plans.{IsPieceRun, IsNext, HasEnded};

    /// What the composite ends with.
    type Outcome;

    /// The plain data that the plan was made, and the composite begun, with.
    type Made;

    // The data of this plan.
    ghost made: { Self → Self.Made };

    // It has given no piece yet.
    ghost is_new: { Self → Type 0 };

    // As in a part: the geometry and the view with which the composite may begin; which own lists of it are finished, and
    // the outcome that each shows; and the view that it leaves.
    ghost may_begin: { Self.Made → Geometry → View → Type 0 };

    ghost shape: { Self.Made → Geometry → Own → Self.Outcome → Type 0 };

    ghost leaves: { Self.Made → Geometry → View → Self.Outcome → View → Type 0 };

    // What is known while a piece of this data runs: of the view in which the composite began, and of that in which the
    // piece began.
    ghost knows: { Self → Geometry → View → View → P.Made → Type 0 };

    // What is left of the composite's shape after the piece that runs, by how that ends.
    ghost left: { Self → Geometry → P.Outcome → Own → Self.Outcome → Type 0 };

    // The composite is over, with this outcome: what the plan can be asked for then.
    ghost ended: { Self → Geometry → Self.Outcome → Type 0 };

    /// The first piece. Condition: the plan has given no piece yet.
    fn begin(&mut self) -> P
        requires { is_new self.old }
        ensures made { made self.new ≡ made self.old }
        ensures new { P.is_new result }
        ensures run { (g : Geometry) (view : View) → may_begin (made self.old) g view
            → IsPieceRun P.may_begin P.shape (knows self.new) (left self.new) (shape (made self.old) g) (P.made result) g view view };

    /// What is done after this piece, which has ended so. Condition: the piece can have ended so as the plan's piece.
    fn go_on(&mut self, piece: &P, end: P::Outcome) -> Next<P, Self::Outcome>
        requires { HasEnded P.shape P.leaves (P.ended piece.now) (knows self.old) (P.made piece.now) end }
        ensures made { made self.new ≡ made self.old }
        ensures next { (g : Geometry) (first now later : View) (own : Own)
            → knows self.old g first now (P.made piece.now) → P.shape (P.made piece.now) g own end → P.leaves (P.made piece.now) g now end later → P.ended piece.now g own end
            → IsNext P.made P.is_new P.may_begin P.shape (knows self.new) (left self.new) (left self.old g end) (leaves (made self.old)) (ended self.new) g first later result };
}
