//! Actors that give turns from a list, whatever they hear.

use nm_action::{Heard, Tally, Turn};
use nm_actor::Actor;
use nm_base::Geometry;

/// Gives the turns of a list, one after the other, and then End.
#[derive(Drop)]
pub struct Listed<'a> {
    /// The machine that it acts on.
    pub geometry: &'a Geometry,
    /// Its number among the actors.
    pub number: u32,
    /// The turns that it gives.
    pub turns: &'a [Turn],
    /// How many turns of the list it gave.
    pub given: usize,
    /// The turn that it gave last.
    pub last: Option<Turn>,
}

impl<'a> Actor for Listed<'a> {
    type Made = (Geometry, u32);

    ghost use Rattle.std.specs.Prelude.{◌≡◌, ◌<◌, length, None, All};
    ghost use Rattle.nm_schedule_rows.specs.Listed.{IsSmall, IsAlwaysPermitted, IsListed, nothing_counted};

    ghost made = { λ a. record { 0 = a.geometry.now; 1 = a.number } };

    ghost geometry = { λ made. made.0 };

    ghost number = { λ made. made.1 };

    ghost is_new = { λ a. (a.last ≡ None) × (a.given ≡ 0) × IsSmall a.geometry.now × All IsAlwaysPermitted a.turns.now × (0 < length a.turns.now) };

    ghost agrees = { λ a done last. IsListed a.geometry.now a.turns.now a.given a.last done last };

    ghost counted = { λ a. nothing_counted };

    fn next(&mut self, _heard: Heard) -> Turn {
        let turn = if self.given < self.turns.len() {
            self.turns[self.given]
        } else {
            Turn::End
        };
        self.given = self.given.saturating_add(1);
        self.last = Some(turn);
        turn
    }

    fn tally(&self) -> Tally {
        Tally::default()
    }

    ghost opens = { λ a new. record { small = new.2; free = new.3; some = new.4; same = new.0; begun = new.1 } };
}
