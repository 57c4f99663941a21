//! The order of tiers: they are numbered from 0, the fastest first.

ghost use Rattle.std.specs.Prelude.{◌+◌, ◌-◌, ◌<◌};
ghost use Rattle.std.specs.Option.{SomeIff};

/// The next faster tier. None exactly for tier 0.
pub fn faster(tier: u32) -> Option<u32>
    ensures { SomeIff result (0 < tier) (tier - 1) }
{
    if tier == 0 { None } else { Some(tier - 1) }
}

/// The next slower of this many tiers. None exactly for the last.
pub fn slower(tier: u32, tiers: u32) -> Option<u32>
    requires { tier < tiers }
    ensures { SomeIff result (tier + 1 < tiers) (tier + 1) }
{
    if tier + 1 == tiers {
        None
    } else {
        Some(tier + 1)
    }
}
