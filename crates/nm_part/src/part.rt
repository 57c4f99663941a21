//! Parts of an actor's work.

use nm_event::{Reply, Step};

/// A part of an actor's work: a list of actions, given one at a time, each after the reply to the one before, and an
/// outcome at its end. It sees no view; contracts follow the view from the one that it began in. None of its calls takes
/// memory.
pub trait Part {
    ghost use Rattle.std.specs.Prelude.{◌≡◌, ◌++◌, ◌∷◌, [], List};
    ghost use Rattle.nm_base.specs.Geometry.{Geometry};
    ghost use Rattle.nm_action.specs.declared.action.Action.{Action};
    ghost use Rattle.nm_action.specs.declared.action.Reply.{Reply};
    ghost use Rattle.nm_action.specs.Own.{Own};
    ghost use Rattle.nm_view.specs.Views.{View};
    ghost use Rattle.nm_event.specs.Fitting.{Fits};
    ghost use Rattle.nm_event.specs.After.{view_after};
    ghost use Rattle.nm_part.specs.Parts.{HasBegin, IsPartStep, IsHeard};

    /// What it ends with.
    type Outcome;

    /// The plain data that it was made, and begun, with.
    type Made;

    // The data of this part.
    ghost made: { Self → Self.Made };

    // It has given no action yet.
    ghost is_new: { Self → Type 0 };

    // The geometry and the view with which a part of this data may begin.
    ghost may_begin: { Self.Made → Geometry → View → Type 0 };

    // The shape: a finished own list of this data, and the outcome that it shows.
    ghost shape: { Self.Made → Geometry → Own → Self.Outcome → Type 0 };

    // What a finished part leaves: the view that it began in, its outcome, the view at its end.
    ghost leaves: { Self.Made → Geometry → View → Self.Outcome → View → Type 0 };

    // Begun in this view it has this own list, and awaits the answer to this action.
    ghost awaits: { Self → Geometry → View → Own → Action → Type 0 };

    // It is over, with this own list and this outcome: what it can be asked for then, and that it may be begun again.
    ghost ended: { Self → Geometry → Own → Self.Outcome → Type 0 };

    /// The first step. Conditions: it has given no action yet, and there are a geometry and a view with which it may begin.
    fn first(&mut self) -> Step<Self::Outcome>
        requires new { is_new self.old }
        requires begin { HasBegin (may_begin (made self.old)) }
        ensures made { made self.new ≡ made self.old }
        ensures step { (g : Geometry) (v : View) → may_begin (made self.old) g v
            → IsPartStep (awaits self.new) (shape (made self.old)) (leaves (made self.old)) (ended self.new) g v [] result };

    /// The step after this reply to the last action. Condition: the reply fits that action.
    fn after(&mut self, reply: Reply) -> Step<Self::Outcome>
        requires { IsHeard (awaits self.old) reply }
        ensures made { made self.new ≡ made self.old }
        ensures step { (g : Geometry) (v : View) (own : Own) (action : Action)
            → awaits self.old g v own action → Fits g (view_after g v own) action reply
            → IsPartStep (awaits self.new) (shape (made self.old)) (leaves (made self.old)) (ended self.new) g v (own ++ (action, reply) ∷ []) result };
}
