//! The words of a tier's free frames: a bit for each frame, set where the frame is free.

ghost use Rattle.std.specs.Prelude.{◌≡◌, ◌+◌, ◌<◌, ◌≤◌, ◌^◌};
ghost use Rattle.nm_base.specs.Geometry.{first_frame, frame_count};
ghost use Rattle.nm_base.specs.FreeWords.{free_words, free_index, free_bit, free_base, least_bit, least_frame};
ghost use Rattle.nm_base.specs.Ranges.{IsTier, IsFrame};

use crate::geometry::Geometry;

/// A word of free frames stands for so many.
const FRAMES_OF_WORD: u32 = 64;

impl Geometry {
    /// How many words the free frames of a tier have; none where there is no such tier.
    pub fn free_words(&self, tier: u32) -> u32
        ensures { result ≡ free_words self.now tier }
    {
        if tier as usize >= self.tiers.len() {
            return 0;
        }
        self.tiers[tier as usize].div_ceil(FRAMES_OF_WORD)
    }

    /// Which word of its tier has the bit of a frame.
    pub fn free_index(&self, frame: u32) -> u32
        requires { IsFrame self.now frame }
        ensures { result ≡ free_index self.now frame }
    {
        (frame - self.first_frame(self.tier_of(frame))) / FRAMES_OF_WORD
    }

    /// Which bit of that word is a frame's.
    pub fn free_bit(&self, frame: u32) -> u32
        requires { IsFrame self.now frame }
        ensures value { result ≡ free_bit self.now frame }
        ensures bound { result < 64 }
    {
        (frame - self.first_frame(self.tier_of(frame))) % FRAMES_OF_WORD
    }

    /// The frame for which bit 0 of a word of a tier's free frames stands.
    pub fn free_base(&self, tier: u32, index: u32) -> u32
        requires tier { IsTier self.now tier }
        requires index { index < free_words self.now tier }
        ensures value { result ≡ free_base self.now tier index }
        ensures bound { result + 64 < 2 ^ 32 }
    {
        // A tier has fewer frames than that, so there are few words.
        prove!(self.tiers[tier as usize] < 4096);
        self.first_frame(tier) + FRAMES_OF_WORD * index
    }
}

/// The number of the least set bit of a word.
#[tactic(auto, unfolding(crate::specs::FreeWords::least_bit))]
fn least_bit(word: u64) -> u32
    ensures value { result ≡ least_bit word }
    ensures bound { result ≤ 64 }
{
    word.trailing_zeros()
}

/// The least frame whose bit is set in a word of which bit 0 stands for the frame `base`.
pub fn least_frame(base: u32, word: u64) -> Option<u32>
    requires { base + 64 < 2 ^ 32 }
    ensures { result ≡ least_frame base word }
{
    if word == 0 {
        None
    } else {
        Some(base + least_bit(word))
    }
}
