//! What an access needs of the faults of a processor.

use nm_base::Geometry;
use nm_event::Tally;
use nm_part::Piece;

/// A fault of a processor as a part that always acts: on a virtual page that is not mapped in the table, or on one that is
/// to be written and is read-only for its shadow. None of its calls takes memory.
pub trait Faults<'a>: Piece {
    ghost use Rattle.std.specs.Prelude.{◌≡◌, ℕ, Bool};
    ghost use Rattle.nm_base.specs.Geometry.{Geometry};
    ghost use Rattle.nm_action.specs.declared.action.Action.{Action};
    ghost use Rattle.nm_action.specs.declared.tally.Tally.{Tally};
    ghost use Rattle.nm_action.specs.Own.{Own};
    ghost use Rattle.nm_view.specs.Views.{View};
    ghost use Rattle.nm_access.specs.Faults.{MayFaultOn, HasNothingOpen};

    // What a missing fault, and a shadow fault, on a virtual page is made with.
    ghost missing: { Geometry → ℕ → Self.Made };

    ghost shadowed: { Geometry → ℕ → Self.Made };

    // It waits before this action, after this own list.
    ghost waits_at: { Own → Action → Bool };

    // What an end counts.
    ghost counted: { Self.Outcome → Tally };

    /// The fault on a virtual page that is not mapped in the table. It may begin where the virtual page has a backing page and
    /// the view has no operation, owns no frame and holds no turn.
    fn on_missing(g: &'a Geometry, v: u32) -> Self
        ensures new { Self.is_new result }
        ensures made { Self.made result ≡ missing g.now v }
        ensures may { (view : View) → MayFaultOn g.now v view → Self.may_begin (missing g.now v) g.now view }
        ensures leaves { (view left : View) (end : Self.Outcome) → Self.leaves (missing g.now v) g.now view end left → HasNothingOpen left };

    /// The fault on a virtual page that is read-only for its shadow, with the same conditions.
    fn on_shadowed(g: &'a Geometry, v: u32) -> Self
        ensures new { Self.is_new result }
        ensures made { Self.made result ≡ shadowed g.now v }
        ensures may { (view : View) → MayFaultOn g.now v view → Self.may_begin (shadowed g.now v) g.now view }
        ensures leaves { (view left : View) (end : Self.Outcome) → Self.leaves (shadowed g.now v) g.now view end left → HasNothingOpen left };

    /// Whether the processor is to catch up before the action that was given last.
    fn waits(&self) -> bool
        ensures { (g : Geometry) (view : View) (own : Own) (action : Action) → Self.awaits self.now g view own action → result ≡ waits_at own action };

    /// What an end counts.
    fn counts(end: Self::Outcome) -> Tally
        ensures { result ≡ counted end };
}
