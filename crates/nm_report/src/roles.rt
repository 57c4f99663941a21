//! The roles of a tier's frames.

ghost use Rattle.std.specs.Prelude.{ℕ, ◌<◌, length};
ghost use Rattle.nm_core.specs.EndWords.{HasEndRoom};
ghost use Rattle.nm_core.specs.State.{State};
ghost use Rattle.nm_core.specs.EndWords as ends;
ghost use Rattle.nm_report.specs.Ends.{SumTo, tier_roles, tier_frames};
ghost use Rattle.nm_report.specs.Filters.{HasOneRoleEach, CountsFree, CountsFilters};

use nm_base::Geometry;
use nm_core::EndWords;

/// The frames of a tier that are free, mapped, shadows and held are all of its frames.
pub fn counts_sum(g: &Geometry, end: &EndWords, tier: u32)
    requires room { HasEndRoom g.now end.now }
    requires exists { tier < length g.now.tiers }
    ensures { SumTo (tier_roles g.now end.now.roles tier) (tier_frames g.now tier) }
{}

/// The counts of a tier's line at the end of a state are those of four filters over the tier's frames: that of the free
/// ones always, and each of the four where every frame passes one of their tests.
pub fn counts_filters()
    ensures free { (s : State) (e : ends.EndWords) (t : ℕ) → ends.IsEndOf s e → t < length s.geometry.tiers → CountsFree s e t }
    ensures each { (s : State) (e : ends.EndWords) (t : ℕ) → ends.IsEndOf s e → HasOneRoleEach s → t < length s.geometry.tiers
        → CountsFilters s e t }
{}
