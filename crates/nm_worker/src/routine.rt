//! What an actor does after each of its tasks.

use nm_event::{Lane, Spent, Tally};
use nm_part::Piece;

/// What an actor does next.
#[derive(Drop)]
pub enum Task<P> {
    /// It runs this piece of work, which has given no action yet.
    Run(P),
    /// It puts a page into a lane.
    Put(Lane, u32),
    /// It takes a page from a lane.
    Take(Lane),
    /// It gives End.
    Stop,
}

/// How a task ended.
#[derive(Clone, Copy, Debug, PartialEq, Eq, Drop)]
pub enum Ended<X> {
    /// The piece of work ended so.
    Run(X),
    /// The page was put, or the lane was full.
    Put {
        /// Whether the lane was full.
        full: bool,
    },
    /// A page was taken, or the lane was empty.
    Take(Option<u32>),
}

/// The plan of an actor: which task comes first, and which comes after a task, by how that ended. A routine sees no view;
/// contracts follow the view in which a task begins. None of its calls takes memory.
pub trait Routine<P: Piece> {
    ghost use Rattle.std.specs.Prelude.{◌≡◌, ℕ};
    ghost use Rattle.nm_base.specs.Geometry.{Geometry};
    ghost use Rattle.nm_action.specs.declared.tally.Tally.{Tally};
    ghost use Rattle.nm_view.specs.Views.{View};
    ghost use Rattle.nm_view.specs.Opening.{opening};
    ghost use Rattle.nm_part.specs.Patterns.{CanEnd};
    ghost use Rattle.nm_worker.specs.declared.routine.Task.{Task};
    ghost use Rattle.nm_worker.specs.declared.routine.Ended.{Ended};
    ghost use Rattle.nm_worker.specs.Notes.{Notes};
    ghost use Rattle.nm_worker.specs.Routines.{task_data, IsNextTask, IsTaskOver, IsDrawn, HasTaskOver};

    /// The plain data that it was made with.
    type Made;

    // The data of this routine.
    ghost made: { Self → Self.Made };

    // The geometry and the actor's number in that data.
    ghost geometry: { Self.Made → Geometry };

    ghost number: { Self.Made → ℕ };

    // What a whole sequence shows at its end.
    ghost Outcome: { Type 0 };

    // It has given no task yet.
    ghost is_new: { Self → Type 0 };

    // The shape: which answered turns, each with what is counted at it, are a whole sequence of an actor with this data,
    // and what that shows.
    ghost shape: { Self.Made → Notes → Outcome → Type 0 };

    // What the end of a piece of work counts.
    ghost counts: { P.Outcome → Tally };

    // What is known while this task runs, of the view in which it began.
    ghost knows: { Self → View → Task P.Made → Type 0 };

    // What is left of the shape after the task that runs, by how that ends.
    ghost left: { Self → Ended P.Outcome → Notes → Outcome → Type 0 };

    // What the whole sequence shows where the routine stops.
    ghost stop: { Self → Outcome };

    /// The first task. Condition: the routine has given no task yet.
    fn begin(&mut self) -> Task<P>
        requires { is_new self.old }
        ensures made { made self.new ≡ made self.old }
        ensures can { CanEnd (shape (made self.old)) }
        ensures next { IsNextTask P.made P.is_new P.may_begin P.shape counts (knows self.new) (left self.new) (stop self.new) (shape (made self.old))
            (geometry (made self.old)) (opening (geometry (made self.old)) (number (made self.old))) result };

    /// The task after this one, which has ended so; the actor has drawn so much until then. Conditions: the task can have ended
    /// so as the routine's, and `spent` is what the view has made.
    fn go_on(&mut self, task: &Task<P>, end: Ended<P::Outcome>, spent: Spent) -> Task<P>
        requires { HasTaskOver P.made P.shape P.leaves P.ended (knows self.old) (geometry (made self.old)) task.now end spent }
        ensures made { made self.new ≡ made self.old }
        ensures next { (now later : View) → knows self.old now (task_data P.made task.now) → IsTaskOver P.made P.shape P.leaves P.ended (geometry (made self.old)) now later task.now end → IsDrawn spent later
            → IsNextTask P.made P.is_new P.may_begin P.shape counts (knows self.new) (left self.new) (stop self.new) (left self.old end) (geometry (made self.old)) later result };

    /// What the end of a piece of work counts: faults, moves and demotions by how they ended. What the events of the piece
    /// count is no part of it.
    fn counts(end: &P::Outcome) -> Tally
        ensures { result ≡ counts end.now };
}

/// A routine that can be begun again after it has stopped.
pub trait Resuming<P: Piece>: Routine<P> {
    ghost use Rattle.std.specs.Prelude.{◌≡◌, ◌++◌};
    ghost use Rattle.nm_view.specs.Views.{View};
    ghost use Rattle.nm_worker.specs.declared.routine.Task.TheVariants.{Stop};
    ghost use Rattle.nm_worker.specs.Notes.{Notes};
    ghost use Rattle.nm_worker.specs.Routines.{IsNextTask, HasStopped, IsBegunAgain};

    // It can be begun again.
    ghost can_resume: { Self → Type 0 };

    // The data of a routine that is begun again.
    ghost resumed: { Self.Made → Self.Made };

    /// The first task after the routine has stopped: a whole sequence of the routine that is begun again begins with one of
    /// this routine. Conditions: the routine has stopped, and can be begun again. It takes no memory.
    fn resume(&mut self) -> Task<P>
        requires can { can_resume self.old }
        requires stopped { HasStopped (Self.knows self.old) }
        ensures made { Self.made self.new ≡ resumed (Self.made self.old) }
        ensures geometry { Self.geometry (Self.made self.new) ≡ Self.geometry (Self.made self.old) }
        ensures number { Self.number (Self.made self.new) ≡ Self.number (Self.made self.old) }
        ensures next { (notes : Notes) (view : View) → Self.knows self.old view Stop → Self.shape (Self.made self.old) notes (Self.stop self.old)
            → IsBegunAgain
            (IsNextTask P.made P.is_new P.may_begin P.shape Self.counts (Self.knows self.new) (Self.left self.new) (Self.stop self.new) (λ rest outcome. Self.shape (Self.made self.new) (notes ++ rest) outcome) (Self.geometry (Self.made self.old)) view result)
            (λ rest outcome. Self.shape (Self.made self.new) (notes ++ rest) outcome) };
}
