//! The rule that a shared queue keeps, and the steps that each keep it.
ghost use Rattle.std.specs.Prelude.{◌≡◌, ℕ, ◌+◌, ◌<◌, true, ◌++◌, length, vec_len, vec_capacity, MatchResult, MatchOption};
ghost use Rattle.crossbeam_queue.specs.Passes.{view, IsPassOf, IsSamePass, ruled_capacity};
ghost use Rattle.nm_queue.specs.Histories.{pages_left};
ghost use Rattle.nm_queue.specs.Passes.{PutThen, TookThen, HeldThen, IsAlone};

use crossbeam_queue::protocol::{Join, Lesson, Outcome, Protocol, Split};
use crossbeam_queue::{Pass, RuledArrayQueue};
use std::marker::{Brand, Model, PhantomData};
use std::sync::Wait;

/// What a pass knows. No value of it is made.
pub struct Knowledge {
    marker: PhantomData<u32>,
}

impl Model for Knowledge {
    ghost use Rattle.nm_queue.specs.Passes.{Known, first_pass};

    ghost Value = { Known };

    ghost view = { λ _. first_pass };
}

/// The rule that the queue keeps.
pub struct InOrder;

impl Protocol<u32, Knowledge> for InOrder {
    ghost use Rattle.nm_queue.specs.Passes.{first_pass};
    ghost use Rattle.nm_queue.specs.Rules.{Relates};

    ghost holds = { Relates };

    ghost first = { first_pass };
}

/// The capacity of the queue of a call.
pub trait Room {
    ghost capacity: { ℕ };
}

impl Room for Brand {
    ghost capacity = { 1 };
}

/// A page is put, or the queue is full.
pub struct Puts<J> {
    room: PhantomData<J>,
}

impl<J: Room> Outcome<u32, Knowledge> for Puts<J> {
    ghost use Rattle.nm_queue.specs.Passes.{PutThen};

    ghost then = { λ old page new. PutThen J.capacity page old new };
}

impl<J: Room> Lesson<u32, Knowledge> for Puts<J> {
    ghost use Rattle.nm_queue.specs.Rules.{SawPages};

    ghost fact = { SawPages };
}

/// A page is taken, or the queue is empty.
pub struct Takes;

impl Outcome<u32, Knowledge> for Takes {
    ghost use Rattle.nm_queue.specs.Passes.{TookThen};

    ghost then = { λ old page new. TookThen page old new };
}

impl Lesson<u32, Knowledge> for Takes {
    ghost use Rattle.nm_queue.specs.Rules.{SawPages};

    ghost fact = { SawPages };
}

/// One more pass is made.
pub struct Making;

impl Split<Knowledge> for Making {
    ghost use Rattle.nm_queue.specs.Passes.{after_making, made_pass};

    ghost left = { after_making };

    ghost right = { made_pass };
}

/// A pass is joined into another.
pub struct Joining;

impl Join<Knowledge> for Joining {
    ghost use Rattle.nm_queue.specs.Passes.{with_joined};
    ghost use Rattle.nm_queue.specs.Rules.{spent_pass};

    ghost both = { λ into other. with_joined other into };

    ghost spent = { spent_pass };
}

/// The whole history, where the pass is alone.
pub struct Whole;

impl Lesson<u32, Knowledge> for Whole {
    ghost use Rattle.nm_queue.specs.Passes.{IsAlone};
    ghost use Rattle.nm_queue.specs.Rules.{IsWholeAt};

    ghost fact = { λ known items. IsAlone known → IsWholeAt known items };
}

/// The shared queue under the rule.
pub type Ruled = RuledArrayQueue<u32, Knowledge, InOrder>;

/// A pass of it.
pub type RuledPass = Pass<u32, Knowledge>;

/// A push by the rule.
pub fn put<J: Room, T: Wait>(
    rt: &T,
    queue: &Ruled,
    pass: &mut RuledPass,
    page: u32,
) -> Result<(), u32>
    requires queue { IsPassOf queue.now pass.old }
    requires live { (view pass.old).live ≡ true }
    requires room { ruled_capacity queue.now ≡ J.capacity }
    ensures queue { IsSamePass pass.old pass.new }
    ensures answer { MatchResult result (λ _. PutThen J.capacity page (view pass.old) (view pass.new)) (λ _. (view pass.new ≡ view pass.old) × HeldThen J.capacity (view pass.old)) }
{
    queue.push_as::<Puts<J>, T>(rt, pass, page)
}

/// A pop by the rule.
pub fn take<T: Wait>(rt: &T, queue: &Ruled, pass: &mut RuledPass) -> Option<u32>
    requires queue { IsPassOf queue.now pass.old }
    requires live { (view pass.old).live ≡ true }
    ensures queue { IsSamePass pass.old pass.new }
    ensures answer { MatchOption result ((view pass.new ≡ view pass.old) × HeldThen 0 (view pass.old)) (λ page. TookThen page (view pass.old) (view pass.new)) }
{
    queue.pop_as::<Takes, T>(rt, pass)
}

/// Moves the first page of the queue to the end of a list that has room for it, where every other pass was joined into this one.
pub fn move_first<T: Wait>(rt: &T, queue: &Ruled, pass: &mut RuledPass, into: &mut Vec<u32>)
    requires queue { IsPassOf queue.now pass.old }
    requires live { (view pass.old).live ≡ true }
    requires alone { IsAlone (view pass.old) }
    requires some { 0 < length (pages_left (view pass.old).seen) }
    requires room { vec_len into.old < vec_capacity into.old }
    ensures queue { IsSamePass pass.old pass.new }
    ensures live { (view pass.new).live ≡ true }
    ensures alone { IsAlone (view pass.new) }
    ensures moved { into.new.items ++ pages_left (view pass.new).seen ≡ into.old.items ++ pages_left (view pass.old).seen }
    ensures long { length into.new.items ≡ length into.old.items + 1 }
    ensures capacity { vec_capacity into.new ≡ vec_capacity into.old }
{
    match take(rt, queue, pass) {
        Some(page) => into.push_reserved(page),
        None => unreachable!(),
    }
}
