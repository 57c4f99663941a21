//! The names of the machine's words.

ghost use Rattle.std.specs.Prelude.{◌≡◌, ◌↔◌, IsTrue, ◌<◌, ◌≤◌, ◌+◌, ◌*◌, sum_by, length};
ghost use Rattle.nm_base.specs.Geometry.{frame_count};
ghost use Rattle.nm_base.specs.FreeWords.{words_for};
ghost use Rattle.nm_words.specs.Names.{IsPlace, first_free, free_word_count, free_place, mem_place};

use nm_base::Geometry;

/// The name of a 64-bit word of the machine. Virtual pages, backing pages, frames, processors and tiers go by their
/// numbers.
#[derive(Clone, Copy, Debug, PartialEq, Eq)]
pub enum Where {
    /// The number of bumps.
    Req,
    /// The table word of a virtual page.
    Pte(u32),
    /// The number of raises of a virtual page.
    Stamp(u32),
    /// The home of a backing page: 0, or its frame plus 1.
    Home(u32),
    /// The shadow word of a frame: 0, or the page whose master it is and the frame of the copy.
    Shadow(u32),
    /// The lock of a backing page: 0, or the holder plus 1.
    Lock(u32),
    /// The mark of a backing page: 0 none, 1 candidate, 2 pending.
    Mark(u32),
    /// The acknowledgement of a processor.
    Ack(u32),
    /// The turn at a tier's free frames: 0, or the holder plus 1.
    Turn(u32),
    /// Of a tier, a word of its free frames: bit j of word k stands for its frame 64k + j.
    Free(u32, u32),
    /// Of a frame, a word of its memory.
    Mem(u32, u32),
}

/// Whether a machine of this geometry has a word.
pub fn is_place(g: &Geometry, place: Where) -> bool
    ensures { IsTrue result ↔ IsPlace g.now place }
{
    match place {
        Where::Req => true,
        Where::Pte(vpage) => (vpage as usize) < g.vpages.len(),
        Where::Stamp(vpage) => (vpage as usize) < g.vpages.len(),
        Where::Home(page) => page < g.pages(),
        Where::Shadow(frame) => frame < g.frames(),
        Where::Lock(page) => page < g.pages(),
        Where::Mark(page) => page < g.pages(),
        Where::Ack(cpu) => cpu < g.cpus,
        Where::Turn(tier) => (tier as usize) < g.tiers.len(),
        Where::Free(tier, k) => (tier as usize) < g.tiers.len() && k < g.free_words(tier),
        Where::Mem(frame, i) => frame < g.frames() && i < g.words,
    }
}

/// The words that stand for so many frames.
pub(crate) fn words_for(frames: u32) -> u32
    requires { frames ≤ 4096 }
    ensures { result ≡ words_for frames }
{
    (frames + 63) / 64
}

/// The place of a word of a tier's free frames.
pub(crate) fn free_place(g: &Geometry, tier: u32, index: u32) -> usize
    requires { IsPlace g.now (Where.Free tier index) }
    ensures place { result ≡ free_place g.now tier index }
    ensures within { result < free_word_count g.now }
{
    let mut first = 0;
    for frames in &g.tiers[..tier as usize] {
        first += words_for(*frames) as usize;
    }
    first + index as usize
}

/// The place of a word of a frame.
pub(crate) fn mem_place(g: &Geometry, frame: u32, index: u32) -> usize
    requires { IsPlace g.now (Where.Mem frame index) }
    ensures place { result ≡ mem_place g.now frame index }
    ensures within { result < frame_count g.now * g.now.words }
{
    frame as usize * g.words as usize + index as usize
}
