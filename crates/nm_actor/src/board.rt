//! Boards.

ghost use Rattle.std.specs.Prelude.{◌≡◌, false};

use crate::chair::{PagePort, Stepper, Tells};
use std::sync::Wait;

/// A board gives each actor a chair, once, and takes it back.
pub trait Board {
    ghost use Rattle.nm_view.specs.Opening.{IsActor};
    ghost use Rattle.nm_actor.specs.Boards.{BoardState, not_sat, IsChairOf, IsOpeningChair, IsLast, IsRested, IsRestedBoard, with_sat, with_stood};

    /// Its name.
    type Name;

    /// Its chairs.
    type Chair: Tells<Name = Self::Name> + Stepper + PagePort + Send;

    // Its name, its geometry, the capacities of its lanes, the seat of each actor, the lane lists of those that have stood,
    // and whether `rest` was called.
    ghost board: { Self → BoardState Self.Name };

    /// Gives an actor its chair, on which nothing was done yet. Conditions: there is such an actor, it has not sat, and
    /// `rest` was not called.
    fn sit<T: Wait>(&mut self, rt: &T, actor: u32) -> Self::Chair
        requires exists { IsActor (board self.old).geometry actor }
        requires once { (board self.old).seats actor ≡ not_sat }
        requires before { (board self.old).rested ≡ false }
        ensures board { board self.new ≡ with_sat actor (board self.old) }
        ensures chair { IsOpeningChair (board self.old) actor (Self.Chair.state result) };

    /// Tells the last chair what each lane holds: the pages that the lane lists of all chairs put and did not take. From then
    /// on, until it stands, the chair tells the lane lists of the others. Conditions: `rest` was not called, the chair is of
    /// this board, its actor sits, and no other actor does.
    fn rest<T: Wait>(&mut self, rt: &T, chair: &mut Self::Chair)
        requires before { (board self.old).rested ≡ false }
        requires of { IsChairOf (board self.old) (Self.Chair.state chair.old) }
        requires last { IsLast (board self.old) (Self.Chair.state chair.old) }
        ensures board { IsRestedBoard (board self.old) (board self.new) }
        ensures chair { IsRested (board self.old) (Self.Chair.state chair.old) (Self.Chair.state chair.new) };

    /// Takes a chair back, and tells its lists from then on. Condition: the chair is of this board, its actor has sat and
    /// not stood, and after `rest` it is the chair that was given it.
    fn stand<T: Wait>(&mut self, rt: &T, chair: Self::Chair)
        requires { IsChairOf (board self.old) (Self.Chair.state chair) }
        ensures { board self.new ≡ with_stood (Self.Chair.state chair) (board self.old) };
}
