//! The virtual pages of each backing page, in chains.

ghost use Rattle.std.specs.Prelude.{◌≡◌, ◌<◌, ◌≤◌, ◌↔◌, length, replicate, slice_set, slice_index_or, Some, None, IsTrue, IfOk};
ghost use Rattle.nm_base.specs.Geometry.{backing_among, pages_of};
ghost use Rattle.nm_base.specs.Chains.{IsNextIn, IsNextFromBelow, AreChains, IsReverseMap};

use crate::geometry::{VPage, is_mapped_to};
use std::alloc::{AllocError, Global};

/// For each backing page the chain of its virtual pages, ascending.
#[derive(Debug, Drop)]
pub(crate) struct ReverseMap {
    /// The least virtual page of each backing page.
    first: Vec<Option<u32>>,
    /// After each virtual page the next one of its backing page.
    next: Vec<Option<u32>>,
}

impl ReverseMap {
    /// That of these virtual pages, which are mapped to so many backing pages.
    pub(crate) fn of(
        alloc: Global,
        vpages: &[Option<VPage>],
        pages: u32,
    ) -> Result<ReverseMap, AllocError>
        requires few { length vpages.now ≤ 4096 }
        requires pages { pages ≡ pages_of vpages.now }
        ensures { IfOk result (IsReverseMap vpages.now) }
    {
        let mut first = vec![in alloc; None; pages as usize]?;
        let mut next = vec![in alloc; None; vpages.len()]?;
        link_all(&mut first, &mut next, vpages);
        Ok(ReverseMap { first, next })
    }

    /// The least virtual page of a backing page that is at least `from`.
    pub(crate) fn next(&self, vpages: &[Option<VPage>], page: u32, from: u32) -> Option<u32>
        requires few { length vpages.now ≤ 4096 }
        requires map { IsReverseMap vpages.now self.now }
        ensures { IsNextIn vpages.now page from result }
    {
        let mut at = self.start(vpages, page, from);
        while let Some(vpage) = at {
            if vpage >= from {
                return at;
            }
            at = self.next[vpage as usize];
        }
        None
    }

    /// Where the search for a virtual page of a backing page begins: right after `from - 1` where that is one of them, and
    /// otherwise at the first.
    fn start(&self, vpages: &[Option<VPage>], page: u32, from: u32) -> Option<u32>
        requires few { length vpages.now ≤ 4096 }
        requires map { IsReverseMap vpages.now self.now }
        ensures { IsNextFromBelow vpages.now page from result }
    {
        if from > 0 && is_there(vpages, page, from - 1) {
            self.next[from as usize - 1]
        } else {
            self.first(page)
        }
    }

    /// The least virtual page of a backing page.
    fn first(&self, page: u32) -> Option<u32>
        ensures { result ≡ slice_index_or self.now.first.items page None }
    {
        match self.first.get(page as usize) {
            Some(first) => *first,
            None => None,
        }
    }
}

/// Whether there is a virtual page of this number, and it is mapped to a backing page.
fn is_there(vpages: &[Option<VPage>], page: u32, vpage: u32) -> bool
    ensures { IsTrue result ↔ (backing_among vpages.now vpage ≡ Some page) }
{
    (vpage as usize) < vpages.len() && is_mapped_to(vpages[vpage as usize], page)
}

/// Links virtual pages, of which none is linked yet.
fn link_all(first: &mut [Option<u32>], next: &mut [Option<u32>], vpages: &[Option<VPage>])
    requires few { length vpages.now ≤ 4096 }
    requires first { first.old ≡ replicate (pages_of vpages.now) None }
    requires next { next.old ≡ replicate (length vpages.now) None }
    ensures { AreChains vpages.now 0 first.new next.new }
{
    let mut vpage = vpages.len() as u32;
    while vpage > 0 {
        vpage -= 1;
        if let Some(mapped) = vpages[vpage as usize] {
            link(first, next, vpage, mapped.page);
        }
    }
}

/// Puts a virtual page before the first of its backing page.
fn link(first: &mut [Option<u32>], next: &mut [Option<u32>], vpage: u32, page: u32)
    requires page { page < length first.old }
    requires vpage { vpage < length next.old }
    ensures first { first.new ≡ slice_set first.old page (Some vpage) }
    ensures next { next.new ≡ slice_set next.old vpage (slice_index_or first.old page None) }
{
    next[vpage as usize] = first[page as usize];
    first[page as usize] = Some(vpage);
}
