//! The actors of a machine run on a board.

ghost use Rattle.std.specs.Prelude.{◌≡◌, ◌≢◌, ℕ, ◌+◌, ◌<◌, ◌≤◌, false, [], None, Some, OnErr, IfOk, length, map, vec_capacity};
ghost use Rattle.nm_action.specs.declared.turn.Turn.TheVariants as turn;
ghost use Rattle.nm_actor.specs.Boards.{IsOpeningChair, sitting};
ghost use Rattle.nm_crew.specs.Crewed.{AtEach, IsNewAt};
ghost use Rattle.nm_thread_crew.specs.Boarded.{IsNewBoard, HaveSat, HaveOthersStood, HasStoodLast, IsFinished, IsCrewDone, IsSeated};

use crate::places::{sit_all, sit_down, stand_all, stand_up};
use crate::resuming::Resumes;
use nm_actor::{Actor, Board};
use nm_threads::{Desk, drive, run_actors};
use std::alloc::{AllocError, Global};
use std::sync::Wait;
use std::thread::Threads;

/// The actors of a machine.
#[derive(Drop)]
pub struct Crew<C, M, R> {
    /// The processors.
    pub cpus: Vec<C>,
    /// The migrator.
    pub migrator: M,
    /// The reclaimer.
    pub reclaimer: R,
}

/// The last chair is given rest; its actor begins again, runs to its end and stands up.
fn finish<T: Wait, B: Board, M: Resumes>(rt: &T, board: &mut B, desk: Desk<B::Chair, M>) -> M
    requires seated { IsSeated (B.board board.old) (B.board board.old).geometry.cpus M.geometry M.number (M.made desk.actor) (M.agrees desk.actor) (Some turn.End) (B.Chair.state desk.chair) }
    requires sits { (B.board board.old).seats (B.board board.old).geometry.cpus ≡ sitting }
    requires before { (B.board board.old).rested ≡ false }
    requires stood { HaveOthersStood (B.board board.old) (B.board board.old).geometry.cpus }
    requires nobody { (a : ℕ) → (B.board board.old).geometry.cpus + 2 ≤ a → (B.board board.old).seats a ≢ sitting }
    ensures finished { IsFinished (B.board board.old).geometry.cpus (B.board board.old) (B.board board.new) }
    ensures last { HasStoodLast M.made M.resumed M.agrees (B.board board.new) (B.board board.old).geometry.cpus (M.made desk.actor) result }
{
    let Desk {
        mut chair,
        mut actor,
    } = desk;
    board.rest(rt, &mut chair);
    actor.resume();
    drive(rt, &mut actor, &mut chair);
    board.stand(rt, chair);
    actor
}

/// All actors of a machine sit down.
fn seat_crew<T: Wait, B: Board, C: Actor + Drop, M: Actor, R: Actor>(
    rt: &T,
    board: &mut B,
    cpus: Vec<C>,
    migrator: M,
    reclaimer: R,
    desks: &mut Vec<Desk<B::Chair, C>>,
) -> (Desk<B::Chair, M>, Desk<B::Chair, R>)
where
    B::Chair: Drop,
    requires none { desks.old.items ≡ [] }
    requires room { length cpus.items ≤ vec_capacity desks.old }
    requires many { length cpus.items ≡ (B.board board.old).geometry.cpus }
    requires few { length cpus.items ≤ 16 }
    requires new { IsNewBoard (B.board board.old) }
    ensures sat { HaveSat 0 ((B.board board.old).geometry.cpus + 2) (B.board board.old) (B.board board.new) }
    ensures actors { map (λ d. d.actor) desks.new.items ≡ cpus.items }
    ensures chairs { AtEach (λ n d. IsOpeningChair (B.board board.old) n (B.Chair.state d.chair)) desks.new.items }
    ensures migrator { IsOpeningChair (B.board board.old) (B.board board.old).geometry.cpus (B.Chair.state result.0.chair) × (result.0.actor ≡ migrator) }
    ensures reclaimer { IsOpeningChair (B.board board.old) ((B.board board.old).geometry.cpus + 1) (B.Chair.state result.1.chair) × (result.1.actor ≡ reclaimer) }
{
    let first = cpus.len() as u32;
    sit_all(rt, board, cpus, desks);
    let migrator = sit_down(rt, board, first, migrator);
    let reclaimer = sit_down(rt, board, first + 1, reclaimer);
    (migrator, reclaimer)
}

/// All actors of a machine, which have given no turn, sit down.
fn open_crew<T: Wait, B: Board, C: Actor + Drop, M: Actor, R: Actor>(
    rt: &T,
    board: &mut B,
    cpus: Vec<C>,
    migrator: M,
    reclaimer: R,
    desks: &mut Vec<Desk<B::Chair, C>>,
) -> (Desk<B::Chair, M>, Desk<B::Chair, R>)
where
    B::Chair: Drop,
    requires none { desks.old.items ≡ [] }
    requires room { length cpus.items ≤ vec_capacity desks.old }
    requires many { length cpus.items ≡ (B.board board.old).geometry.cpus }
    requires few { length cpus.items ≤ 16 }
    requires cpus { AtEach (λ n c. IsNewAt C.geometry C.number (C.made c) (C.is_new c) (B.board board.old).geometry n) cpus.items }
    requires migrator { IsNewAt M.geometry M.number (M.made migrator) (M.is_new migrator) (B.board board.old).geometry (B.board board.old).geometry.cpus }
    requires reclaimer { IsNewAt R.geometry R.number (R.made reclaimer) (R.is_new reclaimer) (B.board board.old).geometry ((B.board board.old).geometry.cpus + 1) }
    requires new { IsNewBoard (B.board board.old) }
    ensures sat { HaveSat 0 ((B.board board.old).geometry.cpus + 2) (B.board board.old) (B.board board.new) }
    ensures many { length desks.new.items ≡ (B.board board.old).geometry.cpus }
    ensures made { map (λ d. C.made d.actor) desks.new.items ≡ map C.made cpus.items }
    ensures migrator_made { M.made result.0.actor ≡ M.made migrator }
    ensures reclaimer_made { R.made result.1.actor ≡ R.made reclaimer }
    ensures cpus { AtEach (λ n d. IsSeated (B.board board.old) n C.geometry C.number (C.made d.actor) (C.agrees d.actor) None (B.Chair.state d.chair)) desks.new.items }
    ensures migrator { IsSeated (B.board board.old) (B.board board.old).geometry.cpus M.geometry M.number (M.made result.0.actor) (M.agrees result.0.actor) None (B.Chair.state result.0.chair) }
    ensures reclaimer { IsSeated (B.board board.old) ((B.board board.old).geometry.cpus + 1) R.geometry R.number (R.made result.1.actor) (R.agrees result.1.actor) None (B.Chair.state result.1.chair) }
{
    seat_crew(rt, board, cpus, migrator, reclaimer, desks)
}

/// All actors of a machine, which have ended, stand up; the migrator begins again when the others have stood.
fn stand_crew<T: Wait, B: Board, C: Actor + Drop, M: Resumes, R: Actor>(
    rt: &T,
    board: &mut B,
    desks: Vec<Desk<B::Chair, C>>,
    migrator: Desk<B::Chair, M>,
    reclaimer: Desk<B::Chair, R>,
    cpus: &mut Vec<C>,
) -> (M, R)
where
    B::Chair: Drop,
    requires none { cpus.old.items ≡ [] }
    requires room { length desks.items ≤ vec_capacity cpus.old }
    requires many { length desks.items ≡ (B.board board.old).geometry.cpus }
    requires cpus { AtEach (λ n d. IsSeated (B.board board.old) n C.geometry C.number (C.made d.actor) (C.agrees d.actor) (Some turn.End) (B.Chair.state d.chair)) desks.items }
    requires migrator { IsSeated (B.board board.old) (B.board board.old).geometry.cpus M.geometry M.number (M.made migrator.actor) (M.agrees migrator.actor) (Some turn.End) (B.Chair.state migrator.chair) }
    requires reclaimer { IsSeated (B.board board.old) ((B.board board.old).geometry.cpus + 1) R.geometry R.number (R.made reclaimer.actor) (R.agrees reclaimer.actor) (Some turn.End) (B.Chair.state reclaimer.chair) }
    requires before { (B.board board.old).rested ≡ false }
    requires sit { (n : ℕ) → n < (B.board board.old).geometry.cpus + 2 → (B.board board.old).seats n ≡ sitting }
    requires nobody { (n : ℕ) → (B.board board.old).geometry.cpus + 2 ≤ n → (B.board board.old).seats n ≢ sitting }
    ensures made { map C.made cpus.new.items ≡ map (λ d. C.made d.actor) desks.items }
    ensures reclaimer { R.made result.1 ≡ R.made reclaimer.actor }
    ensures done { IsCrewDone C.agrees (R.agrees result.1) cpus.new.items (B.board board.old) (B.board board.new) }
    ensures last { HasStoodLast M.made M.resumed M.agrees (B.board board.new) (B.board board.old).geometry.cpus (M.made migrator.actor) result.0 }
{
    stand_all(rt, board, desks, cpus);
    let reclaimer = stand_up(rt, board, reclaimer);
    let migrator = finish(rt, board, migrator);
    (migrator, reclaimer)
}

/// All actors of a machine sit down and run to their ends, each on a thread of its own where threads can be made.
fn run_seated<
    T: Threads + Wait + Sync,
    B: Board,
    C: Actor + Send + Drop,
    M: Actor,
    R: Actor + Send,
>(
    rt: &T,
    board: &mut B,
    cpus: Vec<C>,
    migrator: M,
    reclaimer: R,
    desks: &mut Vec<Desk<B::Chair, C>>,
) -> (Desk<B::Chair, M>, Desk<B::Chair, R>)
where
    B::Chair: Drop,
    requires none { desks.old.items ≡ [] }
    requires room { length cpus.items ≤ vec_capacity desks.old }
    requires many { length cpus.items ≡ (B.board board.old).geometry.cpus }
    requires few { length cpus.items ≤ 16 }
    requires cpus { AtEach (λ n c. IsNewAt C.geometry C.number (C.made c) (C.is_new c) (B.board board.old).geometry n) cpus.items }
    requires migrator { IsNewAt M.geometry M.number (M.made migrator) (M.is_new migrator) (B.board board.old).geometry (B.board board.old).geometry.cpus }
    requires reclaimer { IsNewAt R.geometry R.number (R.made reclaimer) (R.is_new reclaimer) (B.board board.old).geometry ((B.board board.old).geometry.cpus + 1) }
    requires new { IsNewBoard (B.board board.old) }
    ensures sat { HaveSat 0 ((B.board board.old).geometry.cpus + 2) (B.board board.old) (B.board board.new) }
    ensures many { length desks.new.items ≡ (B.board board.old).geometry.cpus }
    ensures made { map (λ d. C.made d.actor) desks.new.items ≡ map C.made cpus.items }
    ensures migrator_made { M.made result.0.actor ≡ M.made migrator }
    ensures reclaimer_made { R.made result.1.actor ≡ R.made reclaimer }
    ensures cpus { AtEach (λ n d. IsSeated (B.board board.old) n C.geometry C.number (C.made d.actor) (C.agrees d.actor) (Some turn.End) (B.Chair.state d.chair)) desks.new.items }
    ensures migrator { IsSeated (B.board board.old) (B.board board.old).geometry.cpus M.geometry M.number (M.made result.0.actor) (M.agrees result.0.actor) (Some turn.End) (B.Chair.state result.0.chair) }
    ensures reclaimer { IsSeated (B.board board.old) ((B.board board.old).geometry.cpus + 1) R.geometry R.number (R.made result.1.actor) (R.agrees result.1.actor) (Some turn.End) (B.Chair.state result.1.chair) }
{
    let (mut migrator, mut reclaimer) = open_crew(rt, board, cpus, migrator, reclaimer, desks);
    run_actors(rt, desks, &mut migrator, &mut reclaimer);
    (migrator, reclaimer)
}

/// All actors of a machine sit down at a board, run to their ends, each on a thread of its own where threads can be made, and
/// stand up; the migrator begins again when the others have stood, and stands up last. It may wait. Where there is no memory for
/// the desks nobody has sat.
pub fn run_crew<
    T: Threads + Wait + Sync,
    B: Board,
    C: Actor + Send + Drop,
    M: Resumes + Drop,
    R: Actor + Send + Drop,
>(
    rt: &T,
    alloc: Global,
    board: &mut B,
    cpus: Vec<C>,
    migrator: M,
    reclaimer: R,
) -> Result<Crew<C, M, R>, AllocError>
where
    B::Chair: Drop,
    requires many { length cpus.items ≡ (B.board board.old).geometry.cpus }
    requires few { length cpus.items ≤ 16 }
    requires cpus { AtEach (λ n c. IsNewAt C.geometry C.number (C.made c) (C.is_new c) (B.board board.old).geometry n) cpus.items }
    requires migrator { IsNewAt M.geometry M.number (M.made migrator) (M.is_new migrator) (B.board board.old).geometry (B.board board.old).geometry.cpus }
    requires reclaimer { IsNewAt R.geometry R.number (R.made reclaimer) (R.is_new reclaimer) (B.board board.old).geometry ((B.board board.old).geometry.cpus + 1) }
    requires new { IsNewBoard (B.board board.old) }
    ensures wanting { OnErr result (B.board board.new ≡ B.board board.old) }
    ensures cpus { IfOk result (λ crew. map C.made crew.cpus.items ≡ map C.made cpus.items) }
    ensures reclaimer { IfOk result (λ crew. R.made crew.reclaimer ≡ R.made reclaimer) }
    ensures done { IfOk result (λ crew. IsCrewDone C.agrees (R.agrees crew.reclaimer) crew.cpus.items (B.board board.old) (B.board board.new)) }
    ensures last { IfOk result (λ crew. HasStoodLast M.made M.resumed M.agrees (B.board board.new) (B.board board.old).geometry.cpus (M.made migrator) crew.migrator) }
{
    let mut desks = Vec::with_capacity(alloc, cpus.len())?;
    let mut done = Vec::with_capacity(alloc, cpus.len())?;
    let (migrator, reclaimer) = run_seated(rt, board, cpus, migrator, reclaimer, &mut desks);
    let (migrator, reclaimer) = stand_crew(rt, board, desks, migrator, reclaimer, &mut done);
    Ok(Crew {
        cpus: done,
        migrator,
        reclaimer,
    })
}
