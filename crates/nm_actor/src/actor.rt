//! Actors.

use nm_event::{Heard, Tally, Turn};

/// An actor: it gives its turns one at a time, each after the answer to the one before. None of its calls takes memory.
pub trait Actor {
    ghost use Rattle.std.specs.Prelude.{◌≡◌, ℕ, [], Option, None};
    ghost use Rattle.nm_base.specs.Geometry.{Geometry};
    ghost use Rattle.nm_action.specs.declared.turn.Turn.{Turn};
    ghost use Rattle.nm_action.specs.declared.tally.Tally.{Tally};
    ghost use Rattle.nm_actor.specs.Turns.{Turns, turns_view};
    ghost use Rattle.nm_actor.specs.Actors.{answered, IsAnswerTo, HasHeard, IsTurn};

    /// The plain data that it was made with.
    type Made;

    // The data of this actor.
    ghost made: { Self → Self.Made };

    // The geometry and the actor's number in that data.
    ghost geometry: { Self.Made → Geometry };

    ghost number: { Self.Made → ℕ };

    // It has given no turn yet.
    ghost is_new: { Self → Type 0 };

    // It agrees with these answered turns, which are all of them, and awaits the answer to this turn; none where Start is
    // to be heard.
    ghost agrees: { Self → Turns → Option Turn → Type 0 };

    // What it has counted.
    ghost counted: { Self → Tally };

    /// The next turn. Conditions: what is heard answers the last turn, or is Start where there is none, and a reply fits.
    /// After End it isn't called.
    fn next(&mut self, heard: Heard) -> Turn
        requires { HasHeard (geometry (made self.old)) (number (made self.old)) (agrees self.old) heard }
        ensures made { made self.new ≡ made self.old }
        ensures turn { (turns : Turns) (last : Option Turn) → agrees self.old turns last
            → IsAnswerTo (geometry (made self.old)) (turns_view (geometry (made self.old)) (number (made self.old)) turns) last heard
            → IsTurn (geometry (made self.old)) (number (made self.old)) (agrees self.new) (answered last heard turns) result };

    /// What it has counted so far.
    fn tally(&self) -> Tally
        ensures { result ≡ counted self.now };

    // An actor that has given no turn agrees with no turns, and is to hear Start.
    ghost opens: { (actor : Self) → is_new actor → agrees actor [] None };
}
