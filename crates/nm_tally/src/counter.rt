//! A counter that hears each event of an actor.

ghost use Rattle.std.specs.Prelude.{◌≡◌, ◌<◌, ◌++◌, ◌∷◌, [], IfOk, length};
ghost use Rattle.nm_action.specs.declared.action.Action.{Action};
ghost use Rattle.nm_action.specs.Own.{Own};
ghost use Rattle.nm_base.specs.Geometry.{page_count};
ghost use Rattle.nm_tally.specs.Counts.{zero_tally, mark_counts, counts_with, is_inside};
ghost use Rattle.nm_tally.specs.Counting.{IsCountable, CountsNothing, CountsEvents, AreFlags, reclaiming_with, backwards};

use nm_action::{Action, Bit, Reply, Tally};
use nm_base::Geometry;
use std::alloc::{AllocError, Global};

/// How far a shadow has come that a Reclaim frees, by the last actions.
#[derive(Clone, Copy, Debug, Default, PartialEq, Eq)]
pub(crate) struct Reclaiming {
    /// The last action gave up a shadow.
    given_up: bool,
    /// The page was unlocked right after that, and no more was done than to ask for the turn.
    unlocked: bool,
    /// The last action put its frame back.
    put_back: bool,
}

impl Reclaiming {
    /// After one action more.
    fn with(self, action: Action) -> Reclaiming
        ensures { result ≡ reclaiming_with action self }
    {
        Reclaiming {
            given_up: match action {
                Action::SetShadow { shadow: None, .. } => true,
                _ => false,
            },
            unlocked: match action {
                Action::Unlock { .. } => self.given_up,
                Action::TakeTurn { .. } | Action::Poll | Action::Peek { .. } | Action::Ack { .. } =>
                    self.unlocked,
                _ => false,
            },
            put_back: match action {
                Action::PutFrame { .. } => self.unlocked,
                _ => false,
            },
        }
    }
}

/// What a Mark that was done counts.
fn mark_counts(inside: bool, from: u64, to: u64) -> Tally
    ensures { result ≡ mark_counts inside from to }
{
    let none = Tally::default();
    if from == 0 && to == 1 {
        Tally { marked: 1, ..none }
    } else if from == 1 && to == 0 {
        if inside {
            Tally { cold: 1, ..none }
        } else {
            Tally { spilled: 1, ..none }
        }
    } else {
        none
    }
}

/// Whether an action is of a kind that counts anything.
fn may_count(action: Action) -> bool
    ensures { CountsNothing action result }
{
    match action {
        Action::Soften { .. }
        | Action::Grant { .. }
        | Action::Mark { .. }
        | Action::CopyStore { .. }
        | Action::Bump
        | Action::ReleaseTurn { .. } => true,
        _ => false,
    }
}

/// What an event counts, by whether it stands inside an operation on its page, and whether a reclaimed frame was put back
/// right before it.
fn event_counts(inside: bool, put_back: bool, action: Action, reply: Reply) -> Tally
    ensures { result ≡ counts_with inside put_back action reply }
{
    let none = Tally::default();
    match action {
        Action::Soften { bit: Bit::Hint, .. } => Tally { hint: 1, ..none },
        Action::Grant { .. } => Tally { shadow: 1, ..none },
        Action::Mark { from, to, .. } => match reply {
            Reply::Done => mark_counts(inside, from, to),
            _ => none,
        },
        Action::CopyStore { page: Some(_), .. } => Tally { words: 1, ..none },
        Action::Bump => Tally { flushes: 1, ..none },
        Action::ReleaseTurn { .. } => {
            if put_back {
                Tally {
                    reclaimed: 1,
                    ..none
                }
            } else {
                none
            }
        }
        _ => none,
    }
}

/// Counts the events of an actor one by one: hint faults, grants, marks, copied words, flushes and reclaimed shadows. What
/// the ends of whole works count is none of its business.
#[derive(Debug, Drop)]
pub struct Counter {
    tally: Tally,
    /// For each backing page, whether an operation on it is open.
    locked: Vec<bool>,
    reclaiming: Reclaiming,
}

impl Counter {
    /// A counter that has counted nothing, for actors of this geometry. `AllocError` comes where there is no memory for a
    /// flag for each backing page.
    pub fn new(alloc: Global, g: &Geometry) -> Result<Counter, AllocError>
        ensures pages { IfOk result (λ c. length c.locked.items ≡ page_count g.now) }
        ensures counted { IfOk result (λ c. CountsEvents c []) }
    {
        Ok(Counter {
            tally: Tally::default(),
            locked: vec![in alloc; false; g.pages() as usize]?,
            reclaiming: Reclaiming::default(),
        })
    }

    /// Counts an event. Condition: a page that is locked, unlocked or marked is one of the geometry's.
    pub fn note(&mut self, action: Action, reply: Reply)
        requires { IsCountable (length self.old.locked.items) action }
        ensures pages { length self.new.locked.items ≡ length self.old.locked.items }
        ensures counted { (own : Own) → CountsEvents self.old own → CountsEvents self.new (own ++ (action, reply) ∷ []) }
    {
        // Few events count anything, and a sum of tallies is dear beside a step.
        if may_count(action) {
            let inside = self.is_inside(action);
            let counts = event_counts(inside, self.reclaiming.put_back, action, reply);
            self.tally = self.tally.plus(counts);
        }
        self.reclaiming = self.reclaiming.with(action);
        self.keep_lock(action, reply);
    }

    /// Keeps which pages are locked.
    fn keep_lock(&mut self, action: Action, reply: Reply)
        requires { IsCountable (length self.old.locked.items) action }
        ensures rest { self.new ≡ record self.old { locked = self.new.locked } }
        ensures flags { AreFlags action reply self.old.locked.items self.new.locked.items }
    {
        match action {
            Action::Lock { page } => match reply {
                Reply::Done => self.locked[page as usize] = true,
                _ => {}
            },
            Action::Unlock { page } => self.locked[page as usize] = false,
            _ => {}
        }
    }

    /// Whether an action is a Mark inside an operation on its page.
    fn is_inside(&self, action: Action) -> bool
        requires { IsCountable (length self.now.locked.items) action }
        ensures { (own : Own) → CountsEvents self.now own → result ≡ is_inside action (backwards [] own) }
    {
        match action {
            Action::Mark { page, .. } => self.locked[page as usize],
            _ => false,
        }
    }

    /// What was counted.
    pub fn tally(&self) -> Tally
        ensures { result ≡ self.now.tally }
    {
        self.tally
    }
}
