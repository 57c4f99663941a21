//! An actor that follows a routine.

ghost use Rattle.std.specs.Prelude.{◌≡◌, ℕ, [], ◌∷◌, ◌++◌, length, IfOk, Option, Some};
ghost use Rattle.nm_base.specs.Geometry.{Geometry};
ghost use Rattle.nm_action.specs.declared.action.Action.{Action};
ghost use Rattle.nm_action.specs.declared.turn.Turn.{Turn};
ghost use Rattle.nm_action.specs.declared.turn.Turn.TheVariants as turn;
ghost use Rattle.nm_action.specs.declared.turn.Heard.TheVariants.{Answer};
ghost use Rattle.nm_action.specs.Own.{Own};
ghost use Rattle.nm_view.specs.Views.{View};
ghost use Rattle.nm_view.specs.Opening.{opening};
ghost use Rattle.nm_event.specs.Fitting.{Fits};
ghost use Rattle.nm_event.specs.After.{after_of};
ghost use Rattle.nm_part.specs.Patterns.{IsLeft, CanEnd};
ghost use Rattle.nm_tally.specs.Counting.{CountsEvents};
ghost use Rattle.nm_actor.specs.Turns.{Turns, turns_view};
ghost use Rattle.nm_worker.specs.Notes.{Notes, noted_turns};
ghost use Rattle.nm_worker.specs.Routines.{task_data, IsNextTask, IsTaskOver, IsDrawn, HasTaskOver, CanBeginTask};
ghost use Rattle.nm_worker.specs.Workers.{AwaitsTurn, IsTurnGiven, IsAnswerNoted, IsWorkHeard, IsNewWorker};

use crate::routine::{Ended, Resuming, Routine, Task};
use nm_actor::Actor;
use nm_base::Geometry;
use nm_event::{Action, Heard, Reply, Spent, Step, Tally, Turn};
use nm_part::Piece;
use nm_tally::Counter;
use std::alloc::{AllocError, Global};

/// The actor that a routine makes of its tasks: it runs a piece of work to its end, puts a page or takes one, and then
/// does what the routine says; it counts the events, the ends of the pieces of work, and what was drawn.
#[derive(Drop)]
pub struct Worker<R, P> {
    routine: R,
    task: Task<P>,
    /// The action that awaits its answer, while a piece of work runs.
    action: Action,
    events: Counter,
    ends: Tally,
    spent: Spent,
}

impl<P: Piece + Drop, R: Routine<P> + Drop> Worker<R, P>
where
    P::Outcome: Drop,
{
    /// The actor that follows this routine. `AllocError` comes where there is no memory for what it counts with.
    /// Conditions: the routine has given no task yet, and it is one for this geometry.
    pub fn new(alloc: Global, g: &Geometry, routine: R) -> Result<Worker<R, P>, AllocError>
        requires new { R.is_new routine }
        requires geometry { R.geometry (R.made routine) ≡ g.now }
        ensures made { IfOk result (λ w. R.made w.routine ≡ R.made routine) }
        ensures new { IfOk result (λ w. IsNewWorker (CanEnd (R.shape (R.made w.routine)))
            (IsNextTask P.made P.is_new P.may_begin P.shape R.counts (R.knows w.routine) (R.left w.routine) (R.stop w.routine) (R.shape (R.made w.routine)) (R.geometry (R.made w.routine)) (opening (R.geometry (R.made w.routine)) (R.number (R.made w.routine))) w.task)
            (R.geometry (R.made w.routine)) (R.number (R.made w.routine)) w.events w.ends w.spent) }
    {
        let events = Counter::new(alloc, g)?;
        let mut routine = routine;
        let task = routine.begin();
        Ok(Worker {
            routine,
            task,
            action: Action::Poll,
            events,
            ends: Tally::default(),
            spent: Spent::default(),
        })
    }

    /// Its routine.
    pub fn routine(&self) -> &R
        ensures { result.now ≡ self.now.routine }
    {
        &self.routine
    }

    /// The first turn of its task.
    fn give(&mut self) -> Turn
        requires { CanBeginTask P.made P.is_new P.may_begin self.old.task }
        ensures routine { self.new.routine ≡ self.old.routine }
        ensures events { self.new.events ≡ self.old.events }
        ensures ends { self.new.ends ≡ self.old.ends }
        ensures spent { self.new.spent ≡ self.old.spent }
        ensures given { (notes : Notes)
            → IsNextTask P.made P.is_new P.may_begin P.shape R.counts (R.knows self.old.routine) (R.left self.old.routine) (R.stop self.old.routine) (λ rest outcome. R.shape (R.made self.old.routine) (notes ++ rest) outcome) (R.geometry (R.made self.old.routine)) (turns_view (R.geometry (R.made self.old.routine)) (R.number (R.made self.old.routine)) (noted_turns notes)) self.old.task
            → IsTurnGiven P.made P.is_new P.may_begin P.shape P.awaits R.counts (R.knows self.old.routine) (R.left self.old.routine) (R.stop self.old.routine) (R.shape (R.made self.old.routine)) (R.geometry (R.made self.old.routine)) (R.number (R.made self.old.routine)) self.new.action self.new.task result notes }
    {
        match &mut self.task {
            Task::Run(piece) => {
                let action = piece.start();
                self.action = action;
                Turn::Do(action)
            }
            Task::Put(lane, page) => Turn::Put(*lane, *page),
            Task::Take(lane) => Turn::Take(*lane),
            Task::Stop => Turn::End,
        }
    }

    /// The first turn of the task after its own, which has ended so.
    fn go_on(&mut self, end: Ended<P::Outcome>) -> Turn
        requires { HasTaskOver P.made P.shape P.leaves P.ended (R.knows self.old.routine) (R.geometry (R.made self.old.routine)) self.old.task end self.old.spent }
        ensures made { R.made self.new.routine ≡ R.made self.old.routine }
        ensures events { self.new.events ≡ self.old.events }
        ensures ends { self.new.ends ≡ self.old.ends }
        ensures spent { self.new.spent ≡ self.old.spent }
        ensures given { (notes : Notes) (now : View) → R.knows self.old.routine now (task_data P.made self.old.task)
            → IsTaskOver P.made P.shape P.leaves P.ended (R.geometry (R.made self.old.routine)) now (turns_view (R.geometry (R.made self.old.routine)) (R.number (R.made self.old.routine)) (noted_turns notes)) self.old.task end
            → IsDrawn self.old.spent (turns_view (R.geometry (R.made self.old.routine)) (R.number (R.made self.old.routine)) (noted_turns notes))
            → IsLeft (R.shape (R.made self.old.routine)) notes (R.left self.old.routine end)
            → IsTurnGiven P.made P.is_new P.may_begin P.shape P.awaits R.counts (R.knows self.new.routine) (R.left self.new.routine) (R.stop self.new.routine) (R.shape (R.made self.old.routine)) (R.geometry (R.made self.old.routine)) (R.number (R.made self.old.routine)) self.new.action self.new.task result notes }
    {
        self.task = self.routine.go_on(&self.task, end, self.spent);
        self.give()
    }

    /// The turn after a reply to the piece of work that runs.
    fn hear(&mut self, reply: Reply) -> Turn
        requires { IsWorkHeard (λ notes last. AwaitsTurn P.made P.is_new P.may_begin P.shape P.awaits R.counts (R.knows self.old.routine) (R.left self.old.routine) (R.stop self.old.routine) (R.shape (R.made self.old.routine)) (R.geometry (R.made self.old.routine)) (R.number (R.made self.old.routine)) self.old.action notes last self.old.task) (R.geometry (R.made self.old.routine)) (R.number (R.made self.old.routine)) self.old.spent reply }
        ensures made { R.made self.new.routine ≡ R.made self.old.routine }
        ensures events { self.new.events ≡ self.old.events }
        ensures spent { self.new.spent ≡ self.old.spent }
        ensures given { (notes : Notes) (action : Action)
            → AwaitsTurn P.made P.is_new P.may_begin P.shape P.awaits R.counts (R.knows self.old.routine) (R.left self.old.routine) (R.stop self.old.routine) (R.shape (R.made self.old.routine)) (R.geometry (R.made self.old.routine)) (R.number (R.made self.old.routine)) self.old.action notes (Some (turn.Do action)) self.old.task
            → Fits (R.geometry (R.made self.old.routine)) (turns_view (R.geometry (R.made self.old.routine)) (R.number (R.made self.old.routine)) (noted_turns notes)) action reply
            → IsDrawn self.old.spent (after_of (R.geometry (R.made self.old.routine)) (turns_view (R.geometry (R.made self.old.routine)) (R.number (R.made self.old.routine)) (noted_turns notes)) action reply)
            → IsAnswerNoted (IsTurnGiven P.made P.is_new P.may_begin P.shape P.awaits R.counts (R.knows self.new.routine) (R.left self.new.routine) (R.stop self.new.routine) (R.shape (R.made self.old.routine)) (R.geometry (R.made self.old.routine)) (R.number (R.made self.old.routine)) self.new.action self.new.task result) self.old.ends self.new.ends notes (turn.Do action) (Answer reply) }
    {
        let Task::Run(piece) = &mut self.task else {
            unreachable!()
        };
        match piece.after(reply) {
            Step::Do(action) => {
                self.action = action;
                Turn::Do(action)
            }
            Step::Over(end) => {
                self.ends = self.ends.plus(R::counts(&end));
                self.go_on(Ended::Run(end))
            }
        }
    }
}

impl<P: Piece + Drop, R: Resuming<P> + Drop> Worker<R, P>
where
    P::Outcome: Drop,
{
    ghost use Rattle.std.specs.Prelude.{◌≡◌, ◌++◌, Some, None};
    ghost use Rattle.nm_action.specs.declared.turn.Turn.TheVariants as turn;
    ghost use Rattle.nm_actor.specs.Turns.{Turns};
    ghost use Rattle.nm_worker.specs.Workers.{HasGivenEnd, FollowsRoutine};

    /// Begins the routine again, after the actor gave End: it keeps what it has counted and drawn, and is to hear Start. It
    /// takes no memory. Conditions: the actor gave End, and the routine can be begun again.
    pub fn resume(&mut self)
        requires can { R.can_resume self.old.routine }
        requires ended { HasGivenEnd (FollowsRoutine P.made P.is_new P.may_begin P.shape P.awaits R.counts (R.knows self.old.routine) (R.left self.old.routine) (R.stop self.old.routine) (R.shape (R.made self.old.routine)) (R.geometry (R.made self.old.routine)) (R.number (R.made self.old.routine)) self.old.action self.old.task self.old.events self.old.ends self.old.spent) }
        ensures made { R.made self.new.routine ≡ R.resumed (R.made self.old.routine) }
        ensures events { self.new.events ≡ self.old.events }
        ensures ends { self.new.ends ≡ self.old.ends }
        ensures spent { self.new.spent ≡ self.old.spent }
        ensures agrees { (turns : Turns)
            → FollowsRoutine P.made P.is_new P.may_begin P.shape P.awaits R.counts (R.knows self.old.routine) (R.left self.old.routine) (R.stop self.old.routine) (R.shape (R.made self.old.routine)) (R.geometry (R.made self.old.routine)) (R.number (R.made self.old.routine)) self.old.action self.old.task self.old.events self.old.ends self.old.spent turns (Some turn.End)
            → FollowsRoutine P.made P.is_new P.may_begin P.shape P.awaits R.counts (R.knows self.new.routine) (R.left self.new.routine) (R.stop self.new.routine) (R.shape (R.made self.new.routine)) (R.geometry (R.made self.new.routine)) (R.number (R.made self.new.routine)) self.new.action self.new.task self.new.events self.new.ends self.new.spent turns None }
    {
        self.task = self.routine.resume();
    }
}

impl<P: Piece + Drop, R: Routine<P> + Drop> Actor for Worker<R, P>
where
    P::Outcome: Drop,
{
    type Made = R::Made;

    ghost use Rattle.std.specs.Prelude.{◌≡◌, [], None, refl};
    ghost use Rattle.nm_view.specs.Opening.{opening};
    ghost use Rattle.nm_part.specs.Patterns.{CanEnd};
    ghost use Rattle.nm_action.specs.Tally.{sum_of};
    ghost use Rattle.nm_worker.specs.Routines.{IsNextTask};
    ghost use Rattle.nm_worker.specs.Workers.{IsNewWorker, FollowsRoutine};

    ghost made = { λ w. R.made w.routine };

    ghost geometry = { R.geometry };

    ghost number = { R.number };

    ghost is_new = { λ w. IsNewWorker (CanEnd (R.shape (R.made w.routine)))
        (IsNextTask P.made P.is_new P.may_begin P.shape R.counts (R.knows w.routine) (R.left w.routine) (R.stop w.routine) (R.shape (R.made w.routine)) (R.geometry (R.made w.routine)) (opening (R.geometry (R.made w.routine)) (R.number (R.made w.routine))) w.task)
        (R.geometry (R.made w.routine)) (R.number (R.made w.routine)) w.events w.ends w.spent };

    ghost agrees = { λ w. FollowsRoutine P.made P.is_new P.may_begin P.shape P.awaits R.counts (R.knows w.routine) (R.left w.routine) (R.stop w.routine) (R.shape (R.made w.routine)) (R.geometry (R.made w.routine)) (R.number (R.made w.routine)) w.action w.task w.events w.ends w.spent };

    ghost counted = { λ w. sum_of w.events.tally w.ends };

    fn next(&mut self, heard: Heard) -> Turn {
        match heard {
            Heard::Start => self.give(),
            Heard::Answer(reply) => {
                self.events.note(self.action, reply);
                self.spent.count(self.action);
                self.hear(reply)
            }
            Heard::PutDone => self.go_on(Ended::Put { full: false }),
            Heard::PutFull => self.go_on(Ended::Put { full: true }),
            Heard::Took(page) => self.go_on(Ended::Take(Some(page))),
            Heard::TookNone => self.go_on(Ended::Take(None)),
        }
    }

    fn tally(&self) -> Tally {
        self.events.tally().plus(self.ends)
    }

    ghost opens = { λ w new. record { notes = []; is = refl; next = new.can; events = new.events; ends = new.ends; pages = new.pages; drawn = new.drawn; few = new.few; at = new.next } };
}
