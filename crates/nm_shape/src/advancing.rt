//! Steps of a view that has room for them.

ghost use Rattle.std.specs.Prelude.{◌≡◌};
ghost use Rattle.nm_permit.specs.Permitted.{Allowed};
ghost use Rattle.nm_event.specs.After.{after_of};
ghost use Rattle.nm_event.specs.Fitting.{Fits};
ghost use Rattle.nm_event.specs.Ranged.{IsInRangeReply};
ghost use Rattle.nm_shape.specs.Keyed.{IsKeyed};
ghost use Rattle.nm_shape.specs.Shape.{HasShape};

use nm_base::Geometry;
use nm_event::{Action, ActorView, Reply, after};

/// Changes the view of an actor as its action and the reply say. It takes no memory. What is permitted, with a reply that
/// fits, keeps the shape of the view.
pub fn advance(g: &Geometry, view: &mut ActorView, action: Action, reply: Reply)
    requires shape { HasShape g.now view.old }
    requires allowed { Allowed g.now view.old action }
    requires fits { Fits g.now view.old action reply }
    ensures view { view.new ≡ after_of g.now view.old action reply }
    ensures shape { HasShape g.now view.new }
{
    // What a geometry keeps is part of the reasons.
    prove!(g.cpus <= 16);
    advance_keyed(g, view, action, reply);
}

/// The same for a reply of which only the ranges are known. The numbers of the view stay in range, and no number stands twice
/// in a list of it, so there is room for the next step.
pub fn advance_keyed(g: &Geometry, view: &mut ActorView, action: Action, reply: Reply)
    requires keyed { IsKeyed g.now view.old }
    requires allowed { Allowed g.now view.old action }
    requires range { IsInRangeReply g.now action reply }
    ensures view { view.new ≡ after_of g.now view.old action reply }
    ensures keyed { IsKeyed g.now view.new }
{
    // What a geometry keeps is part of the reasons.
    prove!(g.cpus <= 16);
    after(g, view, action, reply);
}
