//! Where each word stands in the list of all words.

ghost use Rattle.std.specs.Prelude.{◌≡◌, ◌<◌, ◌≤◌, ◌+◌, ◌*◌, length};
ghost use Rattle.nm_base.specs.Geometry.{frame_count};
ghost use Rattle.nm_words.specs.Names.{IsPlace, first_free, free_word_count};
ghost use Rattle.nm_words.specs.Flat.{at, total_words};
ghost use Rattle.nm_arena.specs.Layouts.{base_of, IsLayoutOf};

use nm_base::Geometry;
use nm_words::Where;

/// The places at which the groups of words begin, and how many words there are in all.
#[derive(Clone, Copy, Debug)]
pub(crate) struct Layout {
    pub(crate) stamp: usize,
    pub(crate) home: usize,
    pub(crate) shadow: usize,
    pub(crate) lock: usize,
    pub(crate) mark: usize,
    pub(crate) ack: usize,
    pub(crate) turn: usize,
    pub(crate) free: usize,
    pub(crate) mem: usize,
    pub(crate) end: usize,
}

/// The words of the free frames of the tiers before this one. It is a tier, or the number of tiers.
fn free_before(g: &Geometry, tier: u32) -> usize
    requires { tier ≤ length g.now.tiers }
    ensures { result ≡ first_free g.now tier }
{
    // What a geometry keeps is part of the reasons.
    prove!(g.cpus <= 16);
    let mut first = 0;
    for before in 0..tier {
        first += g.free_words(before) as usize;
    }
    first
}

impl Layout {
    /// The layout of a machine's words.
    pub(crate) fn of(g: &Geometry) -> Layout
        ensures { IsLayoutOf g.now result }
    {
        let vpages = g.vpages.len();
        let pages = g.pages() as usize;
        let frames = g.frames() as usize;
        let stamp = 1 + vpages;
        let home = stamp + vpages;
        let shadow = home + pages;
        let lock = shadow + frames;
        let mark = lock + pages;
        let ack = mark + pages;
        let turn = ack + g.cpus as usize;
        let free = turn + g.tiers.len();
        let mem = free + free_before(g, g.tiers.len() as u32);
        let end = mem + frames * g.words as usize;
        Layout {
            stamp,
            home,
            shadow,
            lock,
            mark,
            ack,
            turn,
            free,
            mem,
            end,
        }
    }

    /// The place of a word.
    pub(crate) fn at(&self, g: &Geometry, name: Where) -> usize
        requires layout { IsLayoutOf g.now self.now }
        requires there { IsPlace g.now name }
        ensures place { result ≡ at g.now name }
        ensures within { result < total_words g.now }
    {
        match name {
            Where::Req => 0,
            Where::Pte(vpage) => 1 + vpage as usize,
            Where::Stamp(vpage) => self.stamp + vpage as usize,
            Where::Home(page) => self.home + page as usize,
            Where::Shadow(frame) => self.shadow + frame as usize,
            Where::Lock(page) => self.lock + page as usize,
            Where::Mark(page) => self.mark + page as usize,
            Where::Ack(cpu) => self.ack + cpu as usize,
            Where::Turn(tier) => self.turn + tier as usize,
            Where::Free(tier, k) => self.free + free_before(g, tier) + k as usize,
            Where::Mem(frame, i) => self.mem + frame as usize * g.words as usize + i as usize,
        }
    }

    /// The name of the word at a place.
    pub(crate) fn name_at(&self, g: &Geometry, place: usize) -> Where
        requires layout { IsLayoutOf g.now self.now }
        requires within { place < total_words g.now }
        ensures place { at g.now result ≡ place }
        ensures there { IsPlace g.now result }
    {
        if place == 0 {
            Where::Req
        } else if place < self.stamp {
            Where::Pte((place - 1) as u32)
        } else if place < self.home {
            Where::Stamp((place - self.stamp) as u32)
        } else if place < self.ack {
            self.name_of_page(g, place)
        } else if place < self.turn {
            Where::Ack((place - self.ack) as u32)
        } else if place < self.free {
            Where::Turn((place - self.turn) as u32)
        } else if place < self.mem {
            free_name(g, place - self.free)
        } else {
            mem_name(g, place - self.mem)
        }
    }

    /// The name of a word that a backing page or a frame has but for its memory: a home, a shadow word, a lock or a mark.
    fn name_of_page(&self, g: &Geometry, place: usize) -> Where
        requires layout { IsLayoutOf g.now self.now }
        requires from { base_of g.now 3 ≤ place }
        requires within { place < base_of g.now 7 }
        ensures place { at g.now result ≡ place }
        ensures there { IsPlace g.now result }
    {
        if place < self.shadow {
            Where::Home((place - self.home) as u32)
        } else if place < self.lock {
            Where::Shadow((place - self.shadow) as u32)
        } else if place < self.mark {
            Where::Lock((place - self.lock) as u32)
        } else {
            Where::Mark((place - self.mark) as u32)
        }
    }
}

/// The name of the word at this place among those of the free frames.
fn free_name(g: &Geometry, place: usize) -> Where
    requires { place < free_word_count g.now }
    ensures place { at g.now result ≡ base_of g.now 9 + place }
    ensures there { IsPlace g.now result }
{
    let mut rest = place;
    for tier in 0..g.tiers.len() as u32 {
        let words = g.free_words(tier) as usize;
        if rest < words {
            return Where::Free(tier, rest as u32);
        }
        rest -= words;
    }
    unreachable!()
}

/// The name of the word at this place among those of the memory.
fn mem_name(g: &Geometry, place: usize) -> Where
    requires { place < frame_count g.now * g.now.words }
    ensures place { at g.now result ≡ base_of g.now 10 + place }
    ensures there { IsPlace g.now result }
{
    let words = g.words as usize;
    Where::Mem((place / words) as u32, (place % words) as u32)
}
