//! Desks that are taken at a board and left again.

ghost use Rattle.std.specs.Prelude.{◌≡◌, ◌<◌, ◌≤◌, ◌^◌, ℕ, false, [], length, map, vec_capacity, Some, None};
ghost use Rattle.nm_action.specs.declared.turn.Turn.TheVariants as turn;
ghost use Rattle.nm_view.specs.Opening.{IsActor};
ghost use Rattle.nm_actor.specs.Boards.{not_sat, sitting, IsChairOf, IsOpeningChair, with_sat, with_stood};
ghost use Rattle.nm_crew.specs.Crewed.{AtEach};
ghost use Rattle.nm_thread_crew.specs.Boarded.{IsNewBoard, HaveSat, HasEndedAt, HasStood, IsSameBoard};

use nm_actor::{Actor, Board};
use nm_threads::Desk;
use std::sync::Wait;

/// An actor sits down.
pub(crate) fn sit_down<T: Wait, B: Board, A: Actor>(
    rt: &T,
    board: &mut B,
    number: u32,
    actor: A,
) -> Desk<B::Chair, A>
    requires exists { IsActor (B.board board.old).geometry number }
    requires once { (B.board board.old).seats number ≡ not_sat }
    requires before { (B.board board.old).rested ≡ false }
    ensures board { B.board board.new ≡ with_sat number (B.board board.old) }
    ensures chair { IsOpeningChair (B.board board.old) number (B.Chair.state result.chair) }
    ensures actor { result.actor ≡ actor }
{
    Desk {
        chair: board.sit(rt, number),
        actor,
    }
}

/// An actor stands up.
pub(crate) fn stand_up<T: Wait, B: Board, A: Actor>(
    rt: &T,
    board: &mut B,
    desk: Desk<B::Chair, A>,
) -> A
    requires { IsChairOf (B.board board.old) (B.Chair.state desk.chair) }
    ensures board { B.board board.new ≡ with_stood (B.Chair.state desk.chair) (B.board board.old) }
    ensures actor { result ≡ desk.actor }
{
    let Desk { chair, actor } = desk;
    board.stand(rt, chair);
    actor
}

/// The actors of a list sit down, from the actor of number 0 on.
pub(crate) fn sit_all<T: Wait, B: Board, C: Actor + Drop>(
    rt: &T,
    board: &mut B,
    cpus: Vec<C>,
    desks: &mut Vec<Desk<B::Chair, C>>,
)
where
    B::Chair: Drop,
    requires none { desks.old.items ≡ [] }
    requires room { length cpus.items ≤ vec_capacity desks.old }
    requires many { length cpus.items ≤ (B.board board.old).geometry.cpus }
    requires small { length cpus.items < 2 ^ 32 }
    requires new { IsNewBoard (B.board board.old) }
    ensures sat { HaveSat 0 (length cpus.items) (B.board board.old) (B.board board.new) }
    ensures actors { map (λ d. d.actor) desks.new.items ≡ cpus.items }
    ensures chairs { AtEach (λ n d. IsOpeningChair (B.board board.old) n (B.Chair.state d.chair)) desks.new.items }
{
    let mut number = 0;
    for actor in cpus {
        let desk = sit_down(rt, board, number, actor);
        desks.push_reserved(desk);
        number += 1;
    }
}

/// The actors at some desks stand up, from the actor of number 0 on.
pub(crate) fn stand_all<T: Wait, B: Board, C: Actor + Drop>(
    rt: &T,
    board: &mut B,
    desks: Vec<Desk<B::Chair, C>>,
    cpus: &mut Vec<C>,
)
where
    B::Chair: Drop,
    requires none { cpus.old.items ≡ [] }
    requires room { length desks.items ≤ vec_capacity cpus.old }
    requires before { (B.board board.old).rested ≡ false }
    requires ended { AtEach (λ n d. HasEndedAt (B.board board.old) n (C.agrees d.actor) (Some turn.End) (B.Chair.state d.chair) × ((B.Chair.state d.chair).others ≡ None)) desks.items }
    requires sit { (n : ℕ) → n < length desks.items → (B.board board.old).seats n ≡ sitting }
    ensures same { IsSameBoard (B.board board.old) (B.board board.new) }
    ensures above { (n : ℕ) → length desks.items ≤ n → ((B.board board.new).seats n ≡ (B.board board.old).seats n) × ((B.board board.new).lanes n ≡ (B.board board.old).lanes n) }
    ensures actors { cpus.new.items ≡ map (λ d. d.actor) desks.items }
    ensures stood { AtEach (λ n c. HasStood (B.board board.new) n (C.agrees c)) cpus.new.items }
{
    for desk in desks {
        let actor = stand_up(rt, board, desk);
        cpus.push_reserved(actor);
    }
}
