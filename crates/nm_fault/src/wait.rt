//! Where an actor may catch up with what others did, before it makes an action.

ghost use Rattle.std.specs.Prelude.{◌≡◌};
ghost use Rattle.nm_fault.specs.Waits.{waits_after, waits_between, is_busy, locks, takes_turn, DoesSearchWait};

use nm_event::{Action, Reply};

/// Whether an action waits, by the event before it: the same Lock or TakeTurn was refused, or the turn of tier 0 was
/// released and is to be taken again.
pub fn waits_after(before: Option<(Action, Reply)>, action: Action) -> bool
    ensures { result ≡ waits_after before action }
{
    match before {
        Some((done, reply)) => waits_between(done, reply, action),
        None => false,
    }
}

/// Whether an action waits after another one, which was answered so.
fn waits_between(done: Action, reply: Reply, action: Action) -> bool
    ensures { result ≡ waits_between done reply action }
{
    match done {
        Action::Lock { page } => is_busy(reply) && locks(page, action),
        Action::TakeTurn { tier } => is_busy(reply) && takes_turn(tier, action),
        Action::ReleaseTurn { tier } => tier == 0 && takes_turn(0, action),
        _ => false,
    }
}

/// Whether a reply is Busy.
fn is_busy(reply: Reply) -> bool
    ensures { result ≡ is_busy reply }
{
    matches!(reply, Reply::Busy(_))
}

/// Whether an action locks this page.
fn locks(page: u32, action: Action) -> bool
    ensures { result ≡ locks page action }
{
    match action {
        Action::Lock { page: locked } => locked == page,
        _ => false,
    }
}

/// Whether an action takes the turn of this tier.
fn takes_turn(tier: u32, action: Action) -> bool
    ensures { result ≡ takes_turn tier action }
{
    match action {
        Action::TakeTurn { tier: taken } => taken == tier,
        _ => false,
    }
}

/// A search for a frame that is made again waits at its first action: after a try for the last frames of tier 0 that had none,
/// whatever came before it, taking the turn of tier 0 waits.
pub fn a_search_made_again_waits()
    ensures { DoesSearchWait }
{}
