//! Watermarks: the numbers of free frames at which a tier's demotion begins and ends.

ghost use Rattle.std.specs.Prelude.{◌≡◌, ◌≤◌, ◌↔◌, IsTrue};
ghost use Rattle.nm_policy.specs.Watermarks.{watermarks_of};

/// The watermarks of a tier, in free frames.
#[derive(Clone, Copy, Debug, PartialEq, Eq)]
pub struct Watermarks {
    /// Promotion leaves this many frames free: one in 64 of the tier's frames, and at least one.
    pub min: u32,
    /// Demotion begins at this level or below it: twice `min`.
    pub low: u32,
    /// Demotion ends at this level or above it: three times `min`.
    pub high: u32,
}

/// The watermark `min` is the tier's frames over this number.
const FRAMES_FOR_ONE: u32 = 64;

impl Watermarks {
    /// The watermarks of a tier of `n` frames, 1 to 4,096.
    pub fn of(n: u32) -> Watermarks
        requires some { 1 ≤ n }
        requires few { n ≤ 4096 }
        ensures { result ≡ watermarks_of n }
    {
        let min = (n / FRAMES_FOR_ONE).max(1);
        Watermarks {
            min,
            low: 2 * min,
            high: 3 * min,
        }
    }
}

/// Whether a tier with this many free frames is to be relieved by demotion.
pub fn wants_demotion(level: u32, w: Watermarks) -> bool
    ensures { IsTrue result ↔ (level ≤ w.low) }
{
    level <= w.low
}

/// Whether a tier has free frames enough, so that demotion ends.
pub fn enough(level: u32, w: Watermarks) -> bool
    ensures { IsTrue result ↔ (w.high ≤ level) }
{
    level >= w.high
}
