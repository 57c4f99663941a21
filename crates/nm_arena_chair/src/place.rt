//! The place of an actor at a running machine and two queues.

ghost use Rattle.std.specs.Prelude.{◌≡◌, ◌∷◌, length, None};
ghost use Rattle.std.specs.Option.{option_map};
ghost use Rattle.nm_permit.specs.Permitted.{Allowed};
ghost use Rattle.nm_event.specs.Fitting.{Fits};
ghost use Rattle.nm_actor.specs.Lanes.{IsPutAnswer, IsTakeAnswer};
ghost use Rattle.nm_actor.specs.Chairs.{lane_of, with_lane, stepped};
ghost use Rattle.nm_queue.specs.Passes.{IsWholeHistory};
ghost use Rattle.nm_queue.specs.Rules.{HasNoTwice};
ghost use Rattle.nm_arena_chair.specs.LaneFaces.{IsSingle};
ghost use Rattle.nm_arena_chair.specs.ChairFaces.{chair_state, IsChairKept, IsBoardPass, rested_face};

use crate::lane::{put_in, take_from};
use nm_action::{Action, Full, Lane, Reply};
use nm_arena::{Arena, Seat};
use nm_queue::{PageQueue, QueuePass};
use std::marker::Model;
use std::sync::Wait;

/// The place of an actor: its seat at the machine, and its passes of both queues.
#[derive(Drop)]
pub struct Place<'a> {
    arena: &'a Arena,
    seat: Seat,
    candidates: &'a PageQueue,
    candidate_pass: QueuePass,
    pending: &'a PageQueue,
    pending_pass: QueuePass,
    // Once the actor was given rest, the numbers of those that stood before, in that order.
    others: Option<Vec<u32>>,
}

impl<'a> Model for Place<'a> {
    ghost use Rattle.std.specs.Option.{option_map};
    ghost use Rattle.nm_arena_chair.specs.ChairFaces.{ChairFace, IsChairKept};

    ghost Value = { ChairFace };

    ghost view = { λ c. record {
      arena = c.arena.now;
      seat = c.seat;
      candidates = c.candidates.now;
      candidate_pass = c.candidate_pass;
      pending = c.pending.now;
      pending_pass = c.pending_pass;
      others = option_map (λ v. v.items) c.others;
    } };

    ghost invariant = { λ c. IsChairKept c.arena.now c.seat c.candidates.now c.candidate_pass c.pending.now c.pending_pass (option_map (λ v. v.items) c.others) };
}

impl<'a> Place<'a> {
    /// The number of the actor.
    pub fn number(&self) -> u32
        ensures { result ≡ self.now.seat.view.number }
    {
        self.seat.view().number
    }

    /// Makes one step of the machine by the actor's seat. It waits for nobody. Condition: the view permits the action.
    pub fn step(&mut self, action: Action) -> Reply
        requires { Allowed (chair_state self.old).geometry (chair_state self.old).view action }
        ensures step { chair_state self.new ≡ stepped action result (chair_state self.old) }
        ensures fits { Fits (chair_state self.old).geometry (chair_state self.old).view action result }
    {
        self.arena.step(&mut self.seat, action)
    }

    /// Puts a page into a lane by the actor's pass, once. `Full` raises the lane's count of these by one. It may wait.
    #[tactic(auto, using(crate::proofs::Kept::candidates_kept, crate::proofs::Kept::pending_kept))]
    pub fn put<T: Wait>(&mut self, rt: &T, lane: Lane, page: u32) -> Result<(), Full>
        ensures rest { chair_state self.new ≡ with_lane lane (lane_of lane (chair_state self.new)) (chair_state self.old) }
        ensures lane { IsPutAnswer page (lane_of lane (chair_state self.old)) (lane_of lane (chair_state self.new)) result }
    {
        let rested = self.others.is_some();
        match lane {
            Lane::Candidates => put_in(rt, self.candidates, &mut self.candidate_pass, rested, page),
            Lane::Pending => put_in(rt, self.pending, &mut self.pending_pass, rested, page),
        }
    }

    /// Takes a page from a lane by the actor's pass, once. `None` raises the lane's count of these by one. It may wait.
    #[tactic(auto, using(crate::proofs::Kept::candidates_kept, crate::proofs::Kept::pending_kept))]
    pub fn take<T: Wait>(&mut self, rt: &T, lane: Lane) -> Option<u32>
        ensures rest { chair_state self.new ≡ with_lane lane (lane_of lane (chair_state self.new)) (chair_state self.old) }
        ensures lane { IsTakeAnswer (lane_of lane (chair_state self.old)) (lane_of lane (chair_state self.new)) result }
    {
        let rested = self.others.is_some();
        match lane {
            Lane::Candidates => take_from(rt, self.candidates, &mut self.candidate_pass, rested),
            Lane::Pending => take_from(rt, self.pending, &mut self.pending_pass, rested),
        }
    }

    /// The place of an actor on which nothing was done yet, or which has not been given rest. Conditions: the seat is that of an
    /// actor of the machine, and each pass is its queue's, makes no passes, and had none joined into it.
    pub fn seated(
        arena: &'a Arena,
        seat: Seat,
        candidates: &'a PageQueue,
        candidate_pass: QueuePass,
        pending: &'a PageQueue,
        pending_pass: QueuePass,
    ) -> Place<'a>
        requires { IsChairKept arena.now seat candidates.now candidate_pass pending.now pending_pass None }
        ensures { result ≡ record { arena = arena.now; seat = seat; candidates = candidates.now; candidate_pass = candidate_pass; pending = pending.now; pending_pass = pending_pass; others = None } }
    {
        Place {
            arena,
            seat,
            candidates,
            candidate_pass,
            pending,
            pending_pass,
            others: None,
        }
    }

    /// Gives the place rest: its passes take in those of the board, by the board's queues, and it tells the lane lists of those that
    /// stood before, whose numbers are `order`. Conditions: it was not given rest; the queues are its own; each pass is its
    /// queue's, moved nothing, took in one pass of each of these actors, and made no more than these and the place's; no actor
    /// stands twice in `order`, nor does the place's own. Nothing had been joined into the place's passes before.
    pub fn give_rest<T: Wait>(
        &mut self,
        rt: &T,
        candidates: &'a PageQueue,
        candidate_pass: QueuePass,
        pending: &'a PageQueue,
        pending_pass: QueuePass,
        order: Vec<u32>,
    )
        requires before { self.old.others ≡ None }
        requires candidate_queue { self.old.candidates.name ≡ candidates.now.name }
        requires pending_queue { self.old.pending.name ≡ pending.now.name }
        requires candidates { IsBoardPass candidates.now (length order.items) candidate_pass }
        requires pending { IsBoardPass pending.now (length order.items) pending_pass }
        requires once { HasNoTwice (self.old.seat.view.number ∷ order.items) }
        ensures given { self.new ≡ rested_face candidates.now candidate_pass pending.now pending_pass order.items self.old }
        ensures candidates { IsWholeHistory self.new.candidate_pass.known }
        ensures pending { IsWholeHistory self.new.pending_pass.known }
        ensures candidates_before { IsSingle self.old.candidate_pass.known }
        ensures pending_before { IsSingle self.old.pending_pass.known }
    {
        candidates.join(rt, &mut self.candidate_pass, candidate_pass);
        pending.join(rt, &mut self.pending_pass, pending_pass);
        self.candidates = candidates;
        self.pending = pending;
        self.others = Some(order);
    }

    /// Takes the place apart: its seat, its passes of both queues, candidates first, and once it was given rest the numbers of those
    /// that stood before.
    pub fn into_parts(self) -> (Seat, QueuePass, QueuePass, Option<Vec<u32>>)
        ensures seat { result.0 ≡ self.entry.seat }
        ensures candidates { result.1 ≡ self.entry.candidate_pass }
        ensures pending { result.2 ≡ self.entry.pending_pass }
        ensures others { option_map (λ v. v.items) result.3 ≡ self.entry.others }
        ensures kept { IsChairKept self.entry.arena self.entry.seat self.entry.candidates self.entry.candidate_pass self.entry.pending self.entry.pending_pass self.entry.others }
    {
        let Place {
            seat,
            candidate_pass,
            pending_pass,
            others,
            ..
        } = self;
        (seat, candidate_pass, pending_pass, others)
    }
}
