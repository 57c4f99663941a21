//! The words of the machine, in flat lists.

ghost use Rattle.std.specs.Prelude.{◌≡◌, ◌≤◌, ◌++◌, IfOk, All};
ghost use Rattle.std.specs.List.{flat_map};
ghost use Rattle.nm_words.specs.Names.{IsPlace};
ghost use Rattle.nm_words.specs.Exchanges.{changed};
ghost use Rattle.nm_words.specs.Words.{word_at, with_word, exchanged, HasSizes, full_words, opening_words};

use crate::exchanges::{Change, changed, exchange_at};
use crate::names::{Where, free_place, mem_place, words_for};
use nm_base::Geometry;
use nm_view::OFF;
use std::alloc::{AllocError, Global};
use std::marker::Model;

/// The words of a machine.
#[derive(Debug, Drop)]
pub struct Words {
    req: u64,
    pte: Vec<u64>,
    stamp: Vec<u64>,
    home: Vec<u64>,
    shadow: Vec<u64>,
    lock: Vec<u64>,
    mark: Vec<u64>,
    ack: Vec<u64>,
    turn: Vec<u64>,
    free: Vec<u64>,
    mem: Vec<u64>,
}

impl Model for Words {
    ghost use Rattle.nm_words.specs.Words as plain;

    ghost Value = { plain.Words };

    ghost view = { λ w. record {
      req = w.req;
      pte = w.pte.items;
      stamp = w.stamp.items;
      home = w.home.items;
      shadow = w.shadow.items;
      lock = w.lock.items;
      mark = w.mark.items;
      ack = w.ack.items;
      turn = w.turn.items;
      free = w.free.items;
      mem = w.mem.items;
    } };
}

/// Appends the words of a tier's free frames, all of them free.
fn push_full(words: &mut Vec<u64>, frames: u32) -> Result<(), AllocError>
    requires { frames ≤ 4096 }
    ensures { IfOk result (λ _. words.new.items ≡ words.old.items ++ full_words frames) }
{
    for k in 0..words_for(frames) {
        let few = (frames - 64 * k).min(64);
        words.push(u64::MAX >> (64 - few))?;
    }
    Ok(())
}

/// The words of the free frames of these tiers, all of them free.
fn full_tiers(alloc: Global, tiers: &[u32]) -> Result<Vec<u64>, AllocError>
    requires { All (λ n. n ≤ 4096) tiers.now }
    ensures { IfOk result (λ words. words.items ≡ flat_map full_words tiers.now) }
{
    let mut words = Vec::new(alloc);
    for frames in tiers {
        push_full(&mut words, *frames)?;
    }
    Ok(words)
}

impl Words {
    /// The words of a machine in which nothing was done: every frame is free, every processor is Off, and every other
    /// word is 0. `AllocError` comes where there is no memory for them.
    pub fn start(alloc: Global, g: &Geometry) -> Result<Words, AllocError>
        ensures words { IfOk result (λ w. w ≡ opening_words g.now) }
        ensures sizes { IfOk result (HasSizes g.now) }
    {
        let words = Words::opening(alloc, g)?;
        Ok(words)
    }

    /// The words of a machine in which nothing was done.
    fn opening(alloc: Global, g: &Geometry) -> Result<Words, AllocError>
        ensures { IfOk result (λ w. w ≡ opening_words g.now) }
    {
        let pages = g.pages() as usize;
        let frames = g.frames() as usize;
        let vpages = g.vpages.len();
        Ok(Words {
            req: 0,
            pte: vec![in alloc; 0u64; vpages]?,
            stamp: vec![in alloc; 0u64; vpages]?,
            home: vec![in alloc; 0u64; pages]?,
            shadow: vec![in alloc; 0u64; frames]?,
            lock: vec![in alloc; 0u64; pages]?,
            mark: vec![in alloc; 0u64; pages]?,
            ack: vec![in alloc; OFF; g.cpus as usize]?,
            turn: vec![in alloc; 0u64; g.tiers.len()]?,
            free: full_tiers(alloc, &g.tiers)?,
            mem: vec![in alloc; 0u64; frames * g.words as usize]?,
        })
    }

    /// Makes an exchange on the word of a name, and gives the word before it. It takes no memory.
    pub fn exchange(&mut self, g: &Geometry, place: Where, change: Change) -> u64
        requires place { IsPlace g.now place }
        requires sizes { HasSizes g.now self.old }
        ensures words { self.new ≡ exchanged g.now place change self.old }
        ensures before { result ≡ word_at g.now self.old place }
        ensures sizes { HasSizes g.now self.new }
    {
        self.exchange_in_group(g, place, change)
    }

    /// Makes an exchange on a word of its group, which is written also where it stays.
    fn exchange_in_group(&mut self, g: &Geometry, place: Where, change: Change) -> u64
        requires place { IsPlace g.now place }
        requires sizes { HasSizes g.now self.old }
        ensures words { self.new ≡ with_word g.now self.old place (changed change (word_at g.now self.old place)) }
        ensures before { result ≡ word_at g.now self.old place }
        ensures sizes { HasSizes g.now self.new }
    {
        match place {
            Where::Req => self.exchange_req(change),
            Where::Pte(vpage) => exchange_at(&mut self.pte, vpage as usize, change),
            Where::Stamp(vpage) => exchange_at(&mut self.stamp, vpage as usize, change),
            Where::Home(page) => exchange_at(&mut self.home, page as usize, change),
            Where::Shadow(frame) => exchange_at(&mut self.shadow, frame as usize, change),
            Where::Lock(page) => exchange_at(&mut self.lock, page as usize, change),
            Where::Mark(page) => exchange_at(&mut self.mark, page as usize, change),
            Where::Ack(cpu) => exchange_at(&mut self.ack, cpu as usize, change),
            Where::Turn(tier) => exchange_at(&mut self.turn, tier as usize, change),
            Where::Free(tier, k) => exchange_at(&mut self.free, free_place(g, tier, k), change),
            Where::Mem(frame, i) => exchange_at(&mut self.mem, mem_place(g, frame, i), change),
        }
    }

    /// Makes an exchange on the number of bumps.
    fn exchange_req(&mut self, change: Change) -> u64
        ensures words { self.new ≡ record self.old { req = changed change self.old.req } }
        ensures before { result ≡ self.old.req }
    {
        let word = self.req;
        self.req = changed(change, word);
        word
    }

    /// The word of a name.
    pub fn load(&self, g: &Geometry, place: Where) -> u64
        requires place { IsPlace g.now place }
        requires sizes { HasSizes g.now self.now }
        ensures { result ≡ word_at g.now self.now place }
    {
        match place {
            Where::Req => self.req,
            Where::Pte(vpage) => self.pte[vpage as usize],
            Where::Stamp(vpage) => self.stamp[vpage as usize],
            Where::Home(page) => self.home[page as usize],
            Where::Shadow(frame) => self.shadow[frame as usize],
            Where::Lock(page) => self.lock[page as usize],
            Where::Mark(page) => self.mark[page as usize],
            Where::Ack(cpu) => self.ack[cpu as usize],
            Where::Turn(tier) => self.turn[tier as usize],
            Where::Free(tier, k) => self.free[free_place(g, tier, k)],
            Where::Mem(frame, i) => self.mem[mem_place(g, frame, i)],
        }
    }

    /// The home words, by backing page.
    pub fn homes(&self) -> &[u64]
        ensures { result.now ≡ self.now.home }
    {
        &self.home
    }

    /// The shadow words, by frame.
    pub fn shadows(&self) -> &[u64]
        ensures { result.now ≡ self.now.shadow }
    {
        &self.shadow
    }

    /// The lock words, by backing page.
    pub fn locks(&self) -> &[u64]
        ensures { result.now ≡ self.now.lock }
    {
        &self.lock
    }

    /// The marks, by backing page.
    pub fn marks(&self) -> &[u64]
        ensures { result.now ≡ self.now.mark }
    {
        &self.mark
    }

    /// The acknowledgements, by processor.
    pub fn acks(&self) -> &[u64]
        ensures { result.now ≡ self.now.ack }
    {
        &self.ack
    }

    /// The turn words, by tier.
    pub fn turns(&self) -> &[u64]
        ensures { result.now ≡ self.now.turn }
    {
        &self.turn
    }
}
