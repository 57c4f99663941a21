//! All actors of a machine as one value.

use nm_actor::Actor;
use nm_event::{Heard, Turn};

/// The actors of a machine, of which each gives its turns by its number: the processors, the migrator and the reclaimer.
pub trait Crew {
    ghost use Rattle.std.specs.Prelude.{◌≡◌, ◌≢◌, ℕ, Option};
    ghost use Rattle.nm_base.specs.Geometry.{Geometry};
    ghost use Rattle.nm_action.specs.declared.turn.Turn.{Turn};
    ghost use Rattle.nm_view.specs.Opening.{IsActor};
    ghost use Rattle.nm_actor.specs.Turns.{Turns, turns_view};
    ghost use Rattle.nm_actor.specs.Actors.{answered, IsAnswerTo, HasHeard, IsTurn};
    ghost use Rattle.nm_play.specs.Crews.{CrewMade};

    /// What a processor was made with.
    type CpuMade;

    /// What the migrator was made with.
    type MigratorMade;

    /// What the reclaimer was made with.
    type ReclaimerMade;

    // What the actors were made with.
    ghost made: { Self → CrewMade Self.CpuMade Self.MigratorMade Self.ReclaimerMade };

    // The geometry of their machine.
    ghost geometry: { CrewMade Self.CpuMade Self.MigratorMade Self.ReclaimerMade → Geometry };

    // The actor of a number agrees with these answered turns, and awaits the answer to this turn; none where Start is to be
    // heard.
    ghost agrees: { Self → ℕ → Turns → Option Turn → Type 0 };

    /// The next turn of an actor. Conditions: there is such an actor, and what is heard answers its last turn, or is Start
    /// where there is none. The others stay as they are.
    fn next(&mut self, actor: u32, heard: Heard) -> Turn
        requires exists { IsActor (geometry (made self.old)) actor }
        requires heard { HasHeard (geometry (made self.old)) actor (agrees self.old actor) heard }
        ensures made { made self.new ≡ made self.old }
        ensures turn { (turns : Turns) (last : Option Turn) → agrees self.old actor turns last
            → IsAnswerTo (geometry (made self.old)) (turns_view (geometry (made self.old)) actor turns) last heard
            → IsTurn (geometry (made self.old)) actor (agrees self.new actor) (answered last heard turns) result }
        ensures others { (other : ℕ) (turns : Turns) (last : Option Turn) → other ≢ actor → agrees self.old other turns last → agrees self.new other turns last };
}

/// The actors of a machine: a list of processors, by number, a migrator and a reclaimer.
#[derive(Drop)]
pub struct Actors<C, M, R> {
    /// The processors.
    pub cpus: Vec<C>,
    /// The migrator.
    pub migrator: M,
    /// The reclaimer.
    pub reclaimer: R,
}

impl<C: Actor, M: Actor, R: Actor> Crew for Actors<C, M, R> {
    type CpuMade = C::Made;

    type MigratorMade = M::Made;

    type ReclaimerMade = R::Made;

    ghost use Rattle.std.specs.Prelude.{map};
    ghost use Rattle.nm_play.specs.Crews.{AtActor, IsAgreeing};

    ghost made = { λ s. record { cpus = map C.made s.cpus.items; migrator = M.made s.migrator; reclaimer = R.made s.reclaimer } };

    ghost geometry = { λ made. M.geometry made.migrator };

    ghost agrees = { λ s actor turns last. AtActor
        (λ c. IsAgreeing C.geometry C.number (C.made c) (C.agrees c) (M.geometry (M.made s.migrator)) actor turns last)
        (IsAgreeing M.geometry M.number (M.made s.migrator) (M.agrees s.migrator) (M.geometry (M.made s.migrator)) actor turns last)
        (IsAgreeing R.geometry R.number (R.made s.reclaimer) (R.agrees s.reclaimer) (M.geometry (M.made s.migrator)) actor turns last)
        s.cpus.items actor };

    fn next(&mut self, actor: u32, heard: Heard) -> Turn {
        let place = actor as usize;
        if place < self.cpus.len() {
            self.cpus[place].next(heard)
        } else if place == self.cpus.len() {
            self.migrator.next(heard)
        } else {
            self.reclaimer.next(heard)
        }
    }
}
