//! The smallest parts: one that acts once, and one that runs any part inside its own work.

use super::chairs::Alone;
use nm_actor::run_part;
use nm_event::{Action, Reply, Step};
use nm_part::Part;

/// Bumps once; the word is its outcome.
#[derive(Drop)]
pub(super) struct OneBump {
    pub(super) asked: bool,
}

impl Part for OneBump {
    type Outcome = u64;

    type Made = u32;

    ghost use Rattle.std.specs.Prelude.{◌≡◌, ◌+◌, ◌∷◌, [], false};
    ghost use Rattle.nm_action.specs.declared.action.Action.TheVariants.{Bump};
    ghost use Rattle.nm_action.specs.declared.action.Reply.TheVariants.{Word};
    ghost use Rattle.nm_permit.specs.Permitted.{MayBump};
    ghost use Rattle.nm_part.specs.Parts.{NothingTold};

    ghost made = { λ p. 0 };

    ghost is_new = { λ p. p.asked ≡ false };

    ghost may_begin = { λ made g view. MayBump view };

    ghost shape = { λ made g own word. own ≡ (Bump, Word word) ∷ [] };

    ghost leaves = { λ made g view word left. left.bumps ≡ view.bumps + 1 };

    ghost awaits = { λ p g view own action. (own ≡ []) × (action ≡ Bump) };

    ghost ended = { λ p. NothingTold };

    fn first(&mut self) -> Step<u64> {
        self.asked = true;
        Step::Do(Action::Bump)
    }

    fn after(&mut self, reply: Reply) -> Step<u64> {
        let Reply::Word(word) = reply else {
            unreachable!()
        };
        Step::Over(word)
    }
}

/// Looks at a virtual page, and then is the inner part.
#[derive(Drop)]
pub(super) struct Nested<P> {
    pub(super) vpage: u32,
    pub(super) inner: P,
    pub(super) inside: bool,
}

impl<P: Part + Drop> Part for Nested<P> {
    type Outcome = P::Outcome;

    type Made = (u32, P::Made);

    ghost use Rattle.std.specs.Prelude.{◌≡◌, false};
    ghost use Rattle.nm_actor_rows.specs.Nested.{MayNest, IsNested, LeavesNested, IsLooking, IsInside, AwaitsNested, EndsInside};

    ghost made = { λ p. record { 0 = p.vpage; 1 = P.made p.inner } };

    ghost is_new = { λ p. (p.inside ≡ false) × P.is_new p.inner };

    ghost may_begin = { λ made g view. MayNest P.may_begin P.shape made.0 made.1 g view };

    ghost shape = { λ made g own outcome. IsNested (P.shape made.1 g) made.0 own outcome };

    ghost leaves = { λ made g view outcome left. LeavesNested (P.leaves made.1 g) g made.0 view outcome left };

    ghost awaits = { λ p g view own action. AwaitsNested p.inside
        (P.is_new p.inner × IsLooking (λ g view. MayNest P.may_begin P.shape p.vpage (P.made p.inner) g view) p.vpage g view own action)
        (IsInside (P.awaits p.inner) p.vpage g view own action) };

    ghost ended = { λ p g own outcome. EndsInside (P.ended p.inner g) p.vpage own outcome };

    fn first(&mut self) -> Step<P::Outcome> {
        Step::Do(Action::Look { vpage: self.vpage })
    }

    fn after(&mut self, reply: Reply) -> Step<P::Outcome> {
        if self.inside {
            return self.inner.after(reply);
        }
        self.inside = true;
        self.inner.first()
    }
}

#[test]
fn a_part_is_driven_to_its_end(rt: HostRuntime) {
    let mut chair = Alone::new(0);
    let mut part = OneBump { asked: false };
    let word = run_part(&rt, &mut part, &mut chair);
    assert!(rt; word == 0 && chair.bumps == 1);
}
