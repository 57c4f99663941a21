//! A board over a running machine and two shared queues.

ghost use Rattle.std.specs.Prelude.{◌≡◌, ◌≢◌, ℕ, true, false, map, IfOk};
ghost use Rattle.std.specs.List.{range_with_len};
ghost use Rattle.nm_view.specs.Opening.{IsActor};
ghost use Rattle.nm_core.specs.State.{actor_count};
ghost use Rattle.nm_rule.specs.Knows.{seat_of, unsplit_seats};
ghost use Rattle.nm_arena.specs.Seats.{IsFirstSeat, IsSplitOut};
ghost use Rattle.nm_arena.specs.Ends.{own_lists};
ghost use Rattle.nm_queue.specs.Histories.{pages_left};
ghost use Rattle.nm_queue.specs.Passes.{IsWholeHistory};
ghost use Rattle.nm_actor.specs.Boards.{not_sat, sitting, with_sat, with_stood, IsOpeningChair, IsChairOf, IsLast, IsRested, IsRestedBoard};
ghost use Rattle.nm_arena_board.specs.BoardFaces.{board_state, new_board, told_own, IsFreshPass, IsOnlyPass};
ghost use Rattle.nm_arena_board.specs.LaneHistories.{IsLaneHistory};
ghost use Rattle.nm_arena_chair.specs.ChairFaces.{board_name, chair_state};

use crate::passes::Main;
use nm_actor::Board;
use nm_arena::{Arena, Seat};
use nm_arena_chair::{ArenaChair, ArenaName, Place};
use nm_base::Geometry;
use nm_io::Gate;
use nm_queue::{PageQueue, QueuePass};
use std::alloc::{AllocError, Global};
use std::marker::Model;
use std::sync::Wait;

/// A board: it has the first seat, and before rest a pass of each queue that makes the others and takes them back.
#[derive(Drop)]
pub struct ArenaBoard<'a, G> {
    gate: &'a G,
    arena: &'a Arena,
    seat: Seat,
    candidates: &'a PageQueue,
    pending: &'a PageQueue,
    // Not from rest until the last chair stands.
    main: Option<Main>,
    // The actor of the last chair, once it has stood.
    last: Option<u32>,
}

impl<'a, G> Model for ArenaBoard<'a, G> {
    ghost use Rattle.nm_arena_board.specs.BoardFaces.{BoardFace, IsBoardKept};

    ghost Value = { BoardFace };

    ghost view = { λ b. record {
      arena = b.arena.now;
      seat = b.seat;
      candidates = b.candidates.now;
      pending = b.pending.now;
      main = b.main;
      last = b.last;
    } };

    ghost invariant = { λ b. IsBoardKept b.arena.now b.seat b.candidates.now b.pending.now b.main b.last };
}

impl<'a, G> ArenaBoard<'a, G> {
    /// A board on which nobody has sat. Its memory is taken here, and the only error is its want. Conditions: the geometry is the
    /// machine's; the seat is its first, from which no seat was split off yet; and each pass is the only one of its queue, which
    /// was not used yet.
    pub fn new(
        alloc: Global,
        geometry: &Geometry,
        gate: &'a G,
        arena: &'a Arena,
        seat: Seat,
        candidates: &'a PageQueue,
        candidate_pass: QueuePass,
        pending: &'a PageQueue,
        pending_pass: QueuePass,
    ) -> Result<ArenaBoard<'a, G>, AllocError>
        requires machine { geometry.now ≡ arena.now.geometry }
        requires first { IsFirstSeat arena.now seat }
        requires unsplit { seat.seats ≡ unsplit_seats arena.now.geometry }
        requires candidates { IsFreshPass candidates.now candidate_pass }
        requires pending { IsFreshPass pending.now pending_pass }
        ensures { IfOk result (λ b. board_state b ≡ new_board (board_name arena.now candidates.now pending.now) arena.now.geometry candidates.now.capacity pending.now.capacity) }
    {
        let order = Vec::with_capacity(alloc, geometry.cpus as usize + 2)?;
        Ok(ArenaBoard {
            gate,
            arena,
            seat,
            candidates,
            pending,
            main: Some(Main {
                candidates: candidate_pass,
                pending: pending_pass,
                order,
            }),
            last: None,
        })
    }

    /// Ends the board, and gives the first seat, into which every seat was joined, and the one pass of each queue, candidates first.
    /// Conditions: `rest` was called, and every actor that has sat has stood.
    ///
    /// Closing a queue tells that its pass has seen the whole history of it: then that is also one history of what the board tells
    /// of all actors.
    pub fn done(self) -> (Seat, QueuePass, QueuePass)
        requires rested { (board_state self).rested ≡ true }
        requires stood { (actor : ℕ) → IsActor (board_state self).geometry actor → (board_state self).seats actor ≢ sitting }
        ensures first { IsFirstSeat self.entry.arena result.0 }
        ensures back { (actor : ℕ) → IsActor self.entry.arena.geometry actor → IsSplitOut (seat_of result.0.seats actor) → ⊥ }
        ensures own { own_lists result.0.seats ≡ map (λ actor. told_own ((board_state self.entry).seats actor)) (range_with_len 0 (actor_count self.entry.arena.geometry)) }
        ensures candidates { IsOnlyPass self.entry.candidates result.1 }
        ensures pending { IsOnlyPass self.entry.pending result.2 }
        ensures candidate_moves { IsWholeHistory result.1.known → IsLaneHistory (λ actor. ((board_state self.entry).lanes actor).candidates) (pages_left result.1.known.seen) }
        ensures pending_moves { IsWholeHistory result.2.known → IsLaneHistory (λ actor. ((board_state self.entry).lanes actor).pending) (pages_left result.2.known.seen) }
    {
        let ArenaBoard { seat, main, .. } = self;
        let Some(main) = main else { unreachable!() };
        let Main {
            candidates,
            pending,
            ..
        } = main;
        (seat, candidates, pending)
    }

    // Gives an actor its chair.
    fn seat_actor<T: Wait>(&mut self, rt: &T, actor: u32) -> ArenaChair<'a, G>
        requires exists { IsActor (board_state self.old).geometry actor }
        requires once { (board_state self.old).seats actor ≡ not_sat }
        requires before { (board_state self.old).rested ≡ false }
        ensures board { board_state self.new ≡ with_sat actor (board_state self.old) }
        ensures chair { IsOpeningChair (board_state self.old) actor (chair_state result.place) }
    {
        let seat = self.arena.split(&mut self.seat, actor);
        let Some(main) = &mut self.main else {
            unreachable!()
        };
        let candidate_pass = self.candidates.pass(rt, &mut main.candidates);
        let pending_pass = self.pending.pass(rt, &mut main.pending);
        ArenaChair {
            gate: self.gate,
            place: Place::seated(
                self.arena,
                seat,
                self.candidates,
                candidate_pass,
                self.pending,
                pending_pass,
            ),
        }
    }

    // Tells the last chair what each lane holds.
    fn rest_place<T: Wait>(&mut self, rt: &T, place: &mut Place<'a>)
        requires before { (board_state self.old).rested ≡ false }
        requires of { IsChairOf (board_state self.old) (chair_state place.old) }
        requires last { IsLast (board_state self.old) (chair_state place.old) }
        ensures board { IsRestedBoard (board_state self.old) (board_state self.new) }
        ensures chair { IsRested (board_state self.old) (chair_state place.old) (chair_state place.new) }
    {
        let Some(main) = self.main.take() else {
            unreachable!()
        };
        let Main {
            candidates,
            pending,
            order,
        } = main;
        place.give_rest(
            rt,
            self.candidates,
            candidates,
            self.pending,
            pending,
            order,
        );
    }

    // Takes a chair back.
    fn stand_place<T: Wait>(&mut self, rt: &T, place: Place<'a>)
        requires { IsChairOf (board_state self.old) (chair_state place) }
        ensures { board_state self.new ≡ with_stood (chair_state place.entry) (board_state self.old) }
    {
        let actor = place.number();
        let (seat, candidates, pending, others) = place.into_parts();
        self.arena.join(&mut self.seat, seat);
        let Some(order) = others else {
            let Some(main) = &mut self.main else {
                unreachable!()
            };
            main.take_in(
                rt,
                self.candidates,
                candidates,
                self.pending,
                pending,
                actor,
            );
            return;
        };
        self.main = Some(Main {
            candidates,
            pending,
            order,
        });
        self.last = Some(actor);
    }
}

impl<'a, G: Gate> Board for ArenaBoard<'a, G> {
    ghost use Rattle.nm_arena_board.specs.BoardFaces.{board_state};

    type Name = ArenaName;

    type Chair = ArenaChair<'a, G>;

    ghost board = { λ b. board_state b };

    fn sit<T: Wait>(&mut self, rt: &T, actor: u32) -> ArenaChair<'a, G> {
        self.seat_actor(rt, actor)
    }

    fn rest<T: Wait>(&mut self, rt: &T, chair: &mut ArenaChair<'a, G>) {
        self.rest_place(rt, &mut chair.place);
    }

    fn stand<T: Wait>(&mut self, rt: &T, chair: ArenaChair<'a, G>) {
        self.stand_place(rt, chair.place);
    }
}
