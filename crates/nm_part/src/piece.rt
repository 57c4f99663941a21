//! Parts that always act.

use crate::part::Part;
use nm_event::Action;

/// A part whose first step is always an action. What runs it inside its own work never finds it over before it has begun.
pub trait Piece: Part {
    ghost use Rattle.std.specs.Prelude.{◌≡◌, []};
    ghost use Rattle.nm_base.specs.Geometry.{Geometry};
    ghost use Rattle.nm_view.specs.Views.{View};
    ghost use Rattle.nm_part.specs.Parts.{HasBegin, IsAsked};

    /// The first action. Conditions: it has given no action yet, and there are a geometry and a view with which it may begin.
    fn start(&mut self) -> Action
        requires new { Self.is_new self.old }
        requires begin { HasBegin (Self.may_begin (Self.made self.old)) }
        ensures made { Self.made self.new ≡ Self.made self.old }
        ensures step { (g : Geometry) (view : View) → Self.may_begin (Self.made self.old) g view
            → IsAsked (Self.awaits self.new) (Self.shape (Self.made self.old)) g view [] result };
}
