//! Bounds of a simulation.

ghost use Rattle.std.specs.Prelude.{◌≡◌};

/// How many pages the lane of candidates can hold.
pub const MOST_CANDIDATES: u32 = 1024;
/// The most turns that an item of a plan makes.
pub const MOST_ITEM_TURNS: u32 = 65_536;

/// The bounds by their numbers: each definition that speaks of the lane of candidates speaks of 1,024 pages, and each that speaks of
/// the turns of an item of 65,536.
pub fn bounds_of_a_simulation()
    ensures candidates { MOST_CANDIDATES ≡ 1024 }
    ensures item { MOST_ITEM_TURNS ≡ 65536 }
{}
