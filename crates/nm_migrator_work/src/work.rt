//! The kinds of the migrator's work.

ghost use Rattle.std.specs.Prelude.{◌≡◌};
ghost use Rattle.nm_migrator_work.specs.Kinds.{step_into};
ghost use Rattle.nm_migrator_work.specs.declared.work.MigratorWork.{MigratorWork};

use nm_event::{Action, Reply, Step};
use nm_part::{Part, Piece};

/// One of the kinds of the migrator's work: a piece of it, what it was made with, or what it ended with.
#[derive(Clone, Copy, Debug, PartialEq, Eq, Drop)]
pub enum MigratorWork<M, L, C, B, V, A> {
    /// The mark of a page is changed.
    Mark(M),
    /// The virtual pages of a page are looked at.
    Looks(L),
    /// A candidate is cooled.
    Cool(C),
    /// A batch of transactions.
    Batch(B),
    /// A locked move.
    Move(V),
    /// The processors are asked whether they have ended.
    Ask(A),
}

impl<M: Part, L: Part, C: Part, B: Part, V: Part, A: Part> Part for MigratorWork<M, L, C, B, V, A> {
    type Outcome = MigratorWork<
        M::Outcome,
        L::Outcome,
        C::Outcome,
        B::Outcome,
        V::Outcome,
        A::Outcome,
    >;

    type Made = MigratorWork<M::Made, L::Made, C::Made, B::Made, V::Made, A::Made>;

    ghost use Rattle.nm_migrator_work.specs.Kinds.{made_by, IsNewBy, MayBy, IsListBy, LeavesBy, AwaitsBy, EndedBy};

    ghost made = { made_by M.made L.made C.made B.made V.made A.made };

    ghost is_new = { IsNewBy M.is_new L.is_new C.is_new B.is_new V.is_new A.is_new };

    ghost may_begin = { MayBy M.may_begin L.may_begin C.may_begin B.may_begin V.may_begin A.may_begin };

    ghost shape = { IsListBy M.shape L.shape C.shape B.shape V.shape A.shape };

    ghost leaves = { LeavesBy M.leaves L.leaves C.leaves B.leaves V.leaves A.leaves };

    ghost awaits = { AwaitsBy M.awaits L.awaits C.awaits B.awaits V.awaits A.awaits };

    ghost ended = { EndedBy M.ended L.ended C.ended B.ended V.ended A.ended };

    fn first(
        &mut self,
    ) -> Step<
        MigratorWork<M::Outcome, L::Outcome, C::Outcome, B::Outcome, V::Outcome, A::Outcome>,
    > {
        match self {
            MigratorWork::Mark(part) => mark(part.first()),
            MigratorWork::Looks(part) => looks(part.first()),
            MigratorWork::Cool(part) => cool(part.first()),
            MigratorWork::Batch(part) => batch(part.first()),
            MigratorWork::Move(part) => locked(part.first()),
            MigratorWork::Ask(part) => ask(part.first()),
        }
    }

    fn after(
        &mut self,
        reply: Reply,
    ) -> Step<
        MigratorWork<M::Outcome, L::Outcome, C::Outcome, B::Outcome, V::Outcome, A::Outcome>,
    > {
        match self {
            MigratorWork::Mark(part) => mark(part.after(reply)),
            MigratorWork::Looks(part) => looks(part.after(reply)),
            MigratorWork::Cool(part) => cool(part.after(reply)),
            MigratorWork::Batch(part) => batch(part.after(reply)),
            MigratorWork::Move(part) => locked(part.after(reply)),
            MigratorWork::Ask(part) => ask(part.after(reply)),
        }
    }
}

impl<M: Piece, L: Piece, C: Piece, B: Piece, V: Piece, A: Piece> Piece
    for MigratorWork<M, L, C, B, V, A> {
    fn start(&mut self) -> Action {
        match self {
            MigratorWork::Mark(part) => part.start(),
            MigratorWork::Looks(part) => part.start(),
            MigratorWork::Cool(part) => part.start(),
            MigratorWork::Batch(part) => part.start(),
            MigratorWork::Move(part) => part.start(),
            MigratorWork::Ask(part) => part.start(),
        }
    }
}

/// The step of a Mark.
fn mark<M, L, C, B, V, A>(step: Step<M>) -> Step<MigratorWork<M, L, C, B, V, A>>
    ensures { result ≡ step_into (λ end. MigratorWork.Mark end) step }
{
    match step {
        Step::Do(action) => Step::Do(action),
        Step::Over(end) => Step::Over(MigratorWork::Mark(end)),
    }
}

/// The step of Looks.
fn looks<M, L, C, B, V, A>(step: Step<L>) -> Step<MigratorWork<M, L, C, B, V, A>>
    ensures { result ≡ step_into (λ end. MigratorWork.Looks end) step }
{
    match step {
        Step::Do(action) => Step::Do(action),
        Step::Over(end) => Step::Over(MigratorWork::Looks(end)),
    }
}

/// The step of a cooling.
fn cool<M, L, C, B, V, A>(step: Step<C>) -> Step<MigratorWork<M, L, C, B, V, A>>
    ensures { result ≡ step_into (λ end. MigratorWork.Cool end) step }
{
    match step {
        Step::Do(action) => Step::Do(action),
        Step::Over(end) => Step::Over(MigratorWork::Cool(end)),
    }
}

/// The step of a batch.
fn batch<M, L, C, B, V, A>(step: Step<B>) -> Step<MigratorWork<M, L, C, B, V, A>>
    ensures { result ≡ step_into (λ end. MigratorWork.Batch end) step }
{
    match step {
        Step::Do(action) => Step::Do(action),
        Step::Over(end) => Step::Over(MigratorWork::Batch(end)),
    }
}

/// The step of a locked move.
fn locked<M, L, C, B, V, A>(step: Step<V>) -> Step<MigratorWork<M, L, C, B, V, A>>
    ensures { result ≡ step_into (λ end. MigratorWork.Move end) step }
{
    match step {
        Step::Do(action) => Step::Do(action),
        Step::Over(end) => Step::Over(MigratorWork::Move(end)),
    }
}

/// The step of a question to the processors.
fn ask<M, L, C, B, V, A>(step: Step<A>) -> Step<MigratorWork<M, L, C, B, V, A>>
    ensures { result ≡ step_into (λ end. MigratorWork.Ask end) step }
{
    match step {
        Step::Do(action) => Step::Do(action),
        Step::Over(end) => Step::Over(MigratorWork::Ask(end)),
    }
}
