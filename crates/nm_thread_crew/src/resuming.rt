//! Actors that begin again.

use nm_actor::Actor;

/// An actor that can begin again after it gave End.
pub trait Resumes: Actor {
    ghost use Rattle.std.specs.Prelude.{◌≡◌, Some, None};
    ghost use Rattle.nm_action.specs.declared.turn.Turn.TheVariants as turn;
    ghost use Rattle.nm_actor.specs.Turns.{Turns};
    ghost use Rattle.nm_thread_crew.specs.Boarded.{HasEnded};

    // What it was made with, once it has begun again.
    ghost resumed: { Self.Made → Self.Made };

    /// Begins again: the next call of `next` hears Start. Condition: it gave End.
    fn resume(&mut self)
        requires { HasEnded (Self.agrees self.old) }
        ensures made { Self.made self.new ≡ resumed (Self.made self.old) }
        ensures geometry { Self.geometry (Self.made self.new) ≡ Self.geometry (Self.made self.old) }
        ensures number { Self.number (Self.made self.new) ≡ Self.number (Self.made self.old) }
        ensures agrees { (turns : Turns) → Self.agrees self.old turns (Some turn.End) → Self.agrees self.new turns None };
}
