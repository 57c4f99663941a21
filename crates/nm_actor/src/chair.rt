//! Chairs: where an actor makes its steps, and puts and takes pages.

ghost use Rattle.std.specs.Prelude.{◌≡◌};

use nm_event::{Action, Full, Lane, Reply};
use std::sync::Wait;

/// What a chair tells of itself, for contracts alone.
pub trait Tells {
    ghost use Rattle.nm_actor.specs.Chairs.{ChairState};

    /// The name of the board that gave the chair.
    type Name;

    // Its geometry, its actor, what that actor did, its lanes, and its board.
    ghost state: { Self → ChairState Self.Name };
}

/// A chair on which an actor makes actions.
pub trait Stepper: Tells {
    ghost use Rattle.nm_permit.specs.Permitted.{Allowed};
    ghost use Rattle.nm_event.specs.Fitting.{Fits};
    ghost use Rattle.nm_actor.specs.Chairs.{stepped};

    /// Makes an action. Condition: the chair's view permits it.
    fn step(&mut self, action: Action) -> Reply
        requires { Allowed (Self.state self.old).geometry (Self.state self.old).view action }
        ensures step { Self.state self.new ≡ stepped action result (Self.state self.old) }
        ensures fits { Fits (Self.state self.old).geometry (Self.state self.old).view action result };
}

/// A chair from which an actor puts pages into lanes and takes pages from them.
pub trait PagePort: Tells {
    ghost use Rattle.nm_actor.specs.Lanes.{IsPutAnswer, IsTakeAnswer};
    ghost use Rattle.nm_actor.specs.Chairs.{lane_of, with_lane};

    /// Puts a page into a lane; `Full` where the lane has no room. Once the chair is the only one that is left, `Full`
    /// comes exactly where the lane has its capacity.
    fn put<T: Wait>(&mut self, rt: &T, lane: Lane, page: u32) -> Result<(), Full>
        ensures rest { Self.state self.new ≡ with_lane lane (lane_of lane (Self.state self.new)) (Self.state self.old) }
        ensures lane { IsPutAnswer page (lane_of lane (Self.state self.old)) (lane_of lane (Self.state self.new)) result };

    /// Takes a page from a lane; `None` where the lane has none. Once the chair is the only one that is left, `None` comes
    /// exactly where the lane is empty.
    fn take<T: Wait>(&mut self, rt: &T, lane: Lane) -> Option<u32>
        ensures rest { Self.state self.new ≡ with_lane lane (lane_of lane (Self.state self.new)) (Self.state self.old) }
        ensures lane { IsTakeAnswer (lane_of lane (Self.state self.old)) (lane_of lane (Self.state self.new)) result };
}
