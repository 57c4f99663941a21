//! The geometry of a machine: its tiers of frames, its processors and its virtual pages.

ghost use Rattle.std.specs.Prelude.{◌≡◌, ◌≢◌, ℕ, ◌^◌, ◌<◌, ◌≤◌, ◌↔◌, length, sum, All, IsTrue, IfOk, IfErr, IfSome, IfNone, Some, Err, MatchOption, option_map};
ghost use Rattle.nm_base.specs.Geometry.{IsGeometry, HasRanges, IsFirstOutside, IsCrowded, AreTiers, AreVPages, made, IsPageSize, page_count, frame_count, pages_of, page_end, tier_of, tier_among, first_frame, backing_page, backing_among, IsInTier, IsNextVPage, IsWritable};
ghost use Rattle.nm_base.specs.Ranges.{IsVPage, IsTier};
ghost use Rattle.nm_base.specs.Chains.{IsReverseMap};

use crate::reverse_map::ReverseMap;
use std::alloc::{AllocError, Global};
use std::marker::Model;
use thiserror::Error;

/// What a virtual page is mapped to.
#[derive(Clone, Copy, Debug, PartialEq, Eq)]
pub struct VPage {
    /// The number of the backing page, 0 to 4,095.
    pub page: u32,
    /// Whether programs may store through this virtual page.
    pub writable: bool,
}

/// A field of a geometry.
#[derive(Clone, Copy, Debug, PartialEq, Eq)]
pub enum Field {
    /// The words of a page.
    Words,
    /// The frames of each tier.
    Tiers,
    /// The number of processors.
    Cpus,
    /// The virtual pages.
    VPages,
}

/// Why there is no such geometry.
#[derive(Debug, Drop, Error)]
pub enum GeometryRefusal {
    /// This field is the first, in the order of the struct, that is outside its limits.
    #[error("OutOfRange")]
    OutOfRange(Field),
    /// Every field is within its limits, and this number of backing pages needs more frames than there are.
    #[error("TooManyPages")]
    TooManyPages(u32),
    /// There is no memory for it.
    #[error("Memory")]
    Memory,
}

/// The geometry of a machine. Frames are numbered tier by tier, the fastest tier first, from 0.
#[derive(Debug, Drop)]
pub struct Geometry {
    /// Words of a page: a power of two, 1 to 512.
    pub words: u32,
    /// Frames of each tier, the fastest first: 2 to 4 tiers of 1 to 4,095 frames, at most 4,096 in all.
    pub tiers: Vec<u32>,
    /// Processors, 1 to 16.
    pub cpus: u32,
    /// What each virtual page is mapped to, by its number: at most 4,096, and at least one is mapped.
    pub vpages: Vec<Option<VPage>>,
    pages: u32,
    frames: u32,
    reverse: ReverseMap,
}

impl Model for Geometry {
    ghost use Rattle.std.specs.Prelude.{◌≡◌};
    ghost use Rattle.nm_base.specs.Geometry as plain;

    ghost Value = { plain.Geometry };

    ghost use Rattle.nm_base.specs.Inside.{plain_of, IsGeometryKept};

    ghost view = { plain_of };

    ghost invariant = { IsGeometryKept };
}

/// A tier has fewer frames than this, and all tiers have at most this many.
const MOST_FRAMES: u32 = 4096;
/// There are at most this many tiers.
const MOST_TIERS: usize = 4;
/// There are at most this many processors.
const MOST_CPUS: u32 = 16;
/// There are at most this many virtual pages, and as many backing pages.
const MOST_PAGES: usize = 4096;
/// Frames beside those of the backing pages and one for each processor: eight open transactions and one demotion.
const SPARE_FRAMES: u32 = 9;

impl Geometry {
    /// The geometry with these fields.
    ///
    /// `OutOfRange` names the first field, in the order of the struct, that is outside its limits; a list with no
    /// mapped virtual page counts as such. `TooManyPages` carries the number of backing pages where they, the
    /// processors and nine more exceed the frames. `Memory` comes where there is none.
    pub fn new(
        alloc: Global,
        words: u32,
        tiers: &[u32],
        cpus: u32,
        vpages: &[Option<VPage>],
    ) -> Result<Geometry, GeometryRefusal>
        ensures ok { IfOk result (λ g. (g ≡ made words tiers.now cpus vpages.now) × IsGeometry g) }
        ensures outside { (f : _) → (result ≡ Err (GeometryRefusal.OutOfRange f))
            ↔ IsFirstOutside (made words tiers.now cpus vpages.now) f }
        ensures crowded { (n : ℕ) → (result ≡ Err (GeometryRefusal.TooManyPages n))
            ↔ IsCrowded (made words tiers.now cpus vpages.now) n }
    {
        if let Some(field) = first_outside(words, tiers, cpus, vpages) {
            return Err(GeometryRefusal::OutOfRange(field));
        }
        let pages = count_pages(vpages) as u32;
        let frames = count_frames(tiers);
        if pages + cpus + SPARE_FRAMES > frames {
            return Err(GeometryRefusal::TooManyPages(pages));
        }
        let tiers = copied(alloc, tiers)?;
        let reverse = reversed(alloc, vpages, pages)?;
        let vpages = copied(alloc, vpages)?;
        Ok(Geometry {
            words,
            tiers,
            cpus,
            vpages,
            pages,
            frames,
            reverse,
        })
    }

    /// How many backing pages there are: the greatest mapped number plus 1.
    pub fn pages(&self) -> u32
        ensures { result ≡ page_count self.now }
    {
        self.pages
    }

    /// How many frames there are in all tiers.
    pub fn frames(&self) -> u32
        ensures { result ≡ frame_count self.now }
    {
        self.frames
    }

    /// The tier in which a frame lies, 0 being the fastest.
    pub fn tier_of(&self, frame: u32) -> u32
        requires { frame < frame_count self.now }
        ensures tier { result ≡ tier_of self.now frame }
        ensures within { IsInTier self.now frame result }
    {
        tier_among(&self.tiers, frame)
    }

    /// The number of a tier's first frame.
    pub fn first_frame(&self, tier: u32) -> u32
        requires { tier < length self.now.tiers }
        ensures { result ≡ first_frame self.now tier }
    {
        count_frames(&self.tiers[..tier as usize])
    }

    /// The backing page of a virtual page, if it is mapped.
    pub fn backing(&self, vpage: u32) -> Option<u32>
        ensures { result ≡ backing_page self.now vpage }
    {
        if !self.is_vpage(vpage) {
            return None;
        }
        match self.vpages[vpage as usize] {
            Some(mapped) => Some(mapped.page),
            None => None,
        }
    }

    /// Whether a virtual page is mapped and may be written.
    pub fn may_be_written(&self, vpage: u32) -> bool
        ensures { IsTrue result ↔ IsWritable self.now vpage }
    {
        if !self.is_vpage(vpage) {
            return false;
        }
        match self.vpages[vpage as usize] {
            Some(mapped) => mapped.writable,
            None => false,
        }
    }

    /// Whether there is such a virtual page, mapped or not.
    pub fn is_vpage(&self, vpage: u32) -> bool
        ensures { IsTrue result ↔ IsVPage self.now vpage }
    {
        (vpage as usize) < self.vpages.len()
    }

    /// Whether there is such a tier.
    pub fn is_tier(&self, tier: u32) -> bool
        ensures { IsTrue result ↔ IsTier self.now tier }
    {
        (tier as usize) < self.tiers.len()
    }

    /// The least virtual page of a backing page that is at least `from`. None exactly where there is none.
    pub fn next_vpage(&self, page: u32, from: u32) -> Option<u32>
        ensures some { IfSome result (IsNextVPage self.now.vpages page from) }
        ensures none { IfNone result ((v : ℕ) → from ≤ v → backing_page self.now v ≢ Some page) }
    {
        self.reverse.next(&self.vpages, page, from)
    }
}

/// How many frames these tiers have.
fn count_frames(tiers: &[u32]) -> u32
    requires { sum tiers.now < 2 ^ 32 }
    ensures { result ≡ sum tiers.now }
{
    tiers.iter().sum()
}

/// The tier in which a frame lies.
fn tier_among(tiers: &[u32], frame: u32) -> u32
    requires short { length tiers.now ≤ 4 }
    requires within { frame < sum tiers.now }
    ensures { result ≡ tier_among tiers.now frame }
{
    let mut tier = 0;
    let mut rest = frame;
    for frames in tiers {
        if rest < *frames {
            return tier;
        }
        rest -= *frames;
        tier += 1;
    }
    tier
}

/// Whether a virtual page is mapped to a backing page.
pub(crate) fn is_mapped_to(vpage: Option<VPage>, page: u32) -> bool
    ensures { IsTrue result ↔ (option_map (λ p. p.page) vpage ≡ Some page) }
{
    match vpage {
        None => false,
        Some(vpage) => vpage.page == page,
    }
}

/// The greatest backing number that is mapped, plus 1.
#[tactic(auto, using(crate::proofs::Pages::pages_of_more))]
fn count_pages(vpages: &[Option<VPage>]) -> u64
    ensures { result ≡ pages_of vpages.now }
{
    let mut pages: u64 = 0;
    for vpage in vpages {
        pages = pages.max(page_end(*vpage));
    }
    pages
}

/// The backing number of a mapped virtual page, plus 1, or 0.
fn page_end(vpage: Option<VPage>) -> u64
    ensures { result ≡ page_end vpage }
{
    match vpage {
        None => 0,
        Some(vpage) => u64::from(vpage.page) + 1,
    }
}

/// The first field that is outside its limits.
fn first_outside(words: u32, tiers: &[u32], cpus: u32, vpages: &[Option<VPage>]) -> Option<Field>
    ensures { MatchOption result (HasRanges (made words tiers.now cpus vpages.now))
        (IsFirstOutside (made words tiers.now cpus vpages.now)) }
{
    if !is_page_size(words) {
        return Some(Field::Words);
    }
    if !are_tiers(tiers) {
        return Some(Field::Tiers);
    }
    if cpus == 0 || cpus > MOST_CPUS {
        return Some(Field::Cpus);
    }
    if !are_vpages(vpages) {
        return Some(Field::VPages);
    }
    None
}

/// Whether pages can have this many words.
fn is_page_size(words: u32) -> bool
    ensures { IsTrue result ↔ IsPageSize words }
{
    for shift in 0..10u32 {
        if words == 1 << shift {
            return true;
        }
    }
    false
}

/// Whether these can be the tiers of a machine.
fn are_tiers(tiers: &[u32]) -> bool
    ensures { IsTrue result ↔ AreTiers tiers.now }
{
    if tiers.len() < 2 || tiers.len() > MOST_TIERS {
        return false;
    }
    if !have_frames(tiers) {
        return false;
    }
    count_frames(tiers) <= MOST_FRAMES
}

/// Whether each tier has 1 to 4,095 frames.
fn have_frames(tiers: &[u32]) -> bool
    ensures { IsTrue result ↔ All (λ n. (1 ≤ n) × (n ≤ 4095)) tiers.now }
{
    tiers
        .iter()
        .all(|frames| *frames >= 1 && *frames < MOST_FRAMES)
}

/// Whether these can be the virtual pages of a machine.
fn are_vpages(vpages: &[Option<VPage>]) -> bool
    ensures { IsTrue result ↔ AreVPages vpages.now }
{
    if vpages.len() > MOST_PAGES {
        return false;
    }
    let pages = count_pages(vpages);
    pages >= 1 && pages <= MOST_PAGES as u64
}

/// A list of its own with the same items.
fn copied<T: Copy>(alloc: Global, items: &[T]) -> Result<Vec<T>, GeometryRefusal>
    ensures ok { IfOk result (λ v. v.items ≡ items.now) }
    ensures memory { IfErr result (λ e. e ≡ GeometryRefusal.Memory) }
{
    Vec::from_slice(alloc, items).map_err(|_| GeometryRefusal::Memory)
}

/// The virtual pages of each backing page, of which there are so many.
fn reversed(
    alloc: Global,
    vpages: &[Option<VPage>],
    pages: u32,
) -> Result<ReverseMap, GeometryRefusal>
    requires few { length vpages.now ≤ 4096 }
    requires pages { pages ≡ pages_of vpages.now }
    ensures ok { IfOk result (IsReverseMap vpages.now) }
    ensures memory { IfErr result (λ e. e ≡ GeometryRefusal.Memory) }
{
    ReverseMap::of(alloc, vpages, pages).map_err(|_| GeometryRefusal::Memory)
}
