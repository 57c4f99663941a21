//! How many shadows were reclaimed inside an operation on a page.

ghost use Rattle.std.specs.Prelude.{◌≡◌, ◌-◌, ◌^◌, ◌&&◌, not, [], ◌∷◌, ◌++◌, min};
ghost use Rattle.nm_action.specs.Own.{Own};
ghost use Rattle.nm_action.specs.declared.action.Reply.{Reply};
ghost use Rattle.nm_obtain.specs.Freed.{unlocks, puts_frame, is_release, freed_inside};
ghost use Rattle.nm_obtain.specs.FreedCounts.{freed_with, HasCounted};

use nm_event::Action;

/// Counts the shadows that were reclaimed inside an operation on a page, as the actions of its own list are answered: the
/// frames that were put back before the page was unlocked.
#[derive(Clone, Copy, Debug, PartialEq, Eq)]
pub struct FreedCount {
    page: u32,
    locked: bool,
    putting: bool,
    freed: u64,
}

impl FreedCount {
    /// The count for an operation on this page, of which nothing is done yet.
    pub fn new(page: u32) -> FreedCount
        ensures page { result.page ≡ page }
        ensures counted { HasCounted result [] }
    {
        FreedCount {
            page,
            locked: true,
            putting: false,
            freed: 0,
        }
    }

    /// Notes that this action was answered.
    pub fn note(&mut self, action: Action)
        ensures page { self.new.page ≡ self.old.page }
        ensures counted { (own : Own) (reply : Reply) → HasCounted self.old own → HasCounted self.new (own ++ (action, reply) ∷ []) }
    {
        let freed = self.freed_with(action);
        let locked = self.stays_locked(action);
        self.freed = freed;
        self.locked = locked;
        self.putting = puts_frame(action);
    }

    /// Whether the page is still locked after this action.
    fn stays_locked(&self, action: Action) -> bool
        ensures { result ≡ (self.now.locked && not (unlocks self.now.page action)) }
    {
        self.locked && !unlocks(self.page, action)
    }

    /// The count with this action.
    fn freed_with(&self, action: Action) -> u64
        ensures { result ≡ freed_with self.now action }
    {
        if self.locked && self.putting && is_release(action) {
            self.freed.saturating_add(1)
        } else {
            self.freed
        }
    }

    /// How many were freed so far; a count that has reached 2^64 - 1 stays there.
    pub fn freed(&self) -> u64
        ensures { (own : Own) → HasCounted self.now own → result ≡ min (freed_inside self.now.page own) (2 ^ 64 - 1) }
    {
        self.freed
    }
}

/// Whether an action puts a frame back.
fn puts_frame(action: Action) -> bool
    ensures { result ≡ puts_frame action }
{
    matches!(action, Action::PutFrame { .. })
}

/// Whether an action releases a turn.
fn is_release(action: Action) -> bool
    ensures { result ≡ is_release action }
{
    matches!(action, Action::ReleaseTurn { .. })
}

/// Whether an action unlocks this page.
fn unlocks(page: u32, action: Action) -> bool
    ensures { result ≡ unlocks page action }
{
    match action {
        Action::Unlock { page: unlocked } => unlocked == page,
        _ => false,
    }
}
