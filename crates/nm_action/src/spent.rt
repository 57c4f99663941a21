//! What an actor has drawn.

ghost use Rattle.std.specs.Prelude.{◌≡◌, ◌+◌, ◌<◌, ◌^◌};
ghost use Rattle.nm_action.specs.Spent.{counted};

use crate::action::Action;

/// How many bumps and raises an actor has made: its view's `bumps` and `raises`, kept by an actor that doesn't see
/// its view.
#[derive(Clone, Copy, Debug, Default, PartialEq, Eq)]
pub struct Spent {
    /// Bumps made.
    pub bumps: u64,
    /// Raises made.
    pub raises: u64,
}

impl Spent {
    /// Counts an action: a Bump adds 1 to `bumps`, a Raise adds 1 to `raises`, and any other action changes nothing.
    pub fn count(&mut self, action: Action)
        requires bumps { self.old.bumps + 1 < 2 ^ 64 }
        requires raises { self.old.raises + 1 < 2 ^ 64 }
        ensures { self.new ≡ counted action self.old }
    {
        match action {
            Action::Bump => self.bumps += 1,
            Action::Raise { .. } => self.raises += 1,
            _ => {}
        }
    }
}
