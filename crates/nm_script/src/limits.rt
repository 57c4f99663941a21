//! Bounds that several lines of a script share.

ghost use Rattle.std.specs.Prelude.{◌≡◌};

/// The most turns of a schedule, and those of a script whose text has no line of a schedule.
pub const MOST_TURNS: u32 = 8_000_000;
/// The most frames of all tiers.
pub const MOST_FRAMES: u32 = 4096;

/// The bounds by their numbers: each definition that speaks of the most turns of a schedule speaks of 8,000,000, and each that speaks of
/// the most frames of 4,096.
pub fn bounds_of_a_script()
    ensures turns { MOST_TURNS ≡ 8000000 }
    ensures frames { MOST_FRAMES ≡ 4096 }
{}
