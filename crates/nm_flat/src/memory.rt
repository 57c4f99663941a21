//! Flat memory: one list of words, in which accesses are made one after the other.

ghost use Rattle.std.specs.Prelude.{◌≡◌, ◌<◌, ◌↔◌, IsTrue, IsSome, IfOk, IfSome, IfNone, length, All};
ghost use Rattle.nm_base.specs.Geometry.{backing_page};
ghost use Rattle.nm_flat.specs.Memory.{IsPlaced, AllPlaced, IsLegal, IsTrueOf, IsMemory, memory_after, with_access, Memory, flat_size, place, mapped_page};

use super::access::{Access, AccessKind};
use nm_base::Geometry;
use std::alloc::{AllocError, Global};
use std::marker::Model;

/// The words of all backing pages.
#[derive(Debug, Drop)]
pub struct FlatMemory {
    /// Each word, at its backing page times the words of a page, plus its index.
    pub words: Vec<u64>,
}

impl Model for FlatMemory {
    ghost use Rattle.nm_flat.specs.Memory as plain;

    ghost Value = { plain.FlatMemory };

    ghost view = { λ m. record { words = m.words.items } };
}

/// The memory after a list of accesses, every word being 0 at first. None exactly where the list is not legal: some
/// load doesn't give, or some add didn't give, what its word has after the stores and adds before it. `AllocError`
/// comes where there is no memory for the words.
pub fn replay(
    alloc: Global,
    g: &Geometry,
    list: &[Access],
) -> Result<Option<FlatMemory>, AllocError>
    requires { AllPlaced g.now list.now }
    ensures legal { IfOk result (λ answer. IfSome answer (λ _. IsLegal g.now list.now)) }
    ensures memory { IfOk result (λ answer.
        IfSome answer (λ m. IsMemory g.now m.words (memory_after g.now list.now))) }
    ensures none { IfOk result (λ answer. IfNone answer (¬ IsLegal g.now list.now)) }
{
    let mut words = vec![in alloc; 0u64; word_count(g)]?;
    for access in list {
        if !apply(g, &mut words, *access) {
            return Ok(None);
        }
    }
    Ok(Some(FlatMemory { words }))
}

/// Makes an access in a flat list of words, and says whether it told what its word had.
fn apply(g: &Geometry, words: &mut [u64], access: Access) -> bool
    requires placed { IsPlaced g.now access }
    requires size { length words.old ≡ flat_size g.now }
    ensures truth { (m : Memory) → IsMemory g.now words.old m → (IsTrue result ↔ IsTrueOf g.now m access) }
    ensures memory { (m : Memory) → IsMemory g.now words.old m → IsMemory g.now words.new (with_access g.now m access) }
{
    let at = place_of(g, access.vpage, access.word);
    match access.kind {
        AccessKind::Load(told) => words[at] == told,
        AccessKind::Store(value) => {
            words[at] = value;
            true
        }
        AccessKind::Add { gave, plus } => {
            let had = words[at];
            words[at] = had.wrapping_add(plus);
            had == gave
        }
    }
}

/// How many words all backing pages have: the length of a flat list of words.
pub fn word_count(g: &Geometry) -> usize
    ensures { result ≡ flat_size g.now }
{
    g.pages() as usize * g.words as usize
}

/// Where a flat list of words has a word of a virtual page: its backing page times the words of a page, plus its
/// index. Virtual pages of one backing page share their places.
pub fn place_of(g: &Geometry, vpage: u32, word: u32) -> usize
    requires mapped { IsSome (backing_page g.now vpage) }
    requires within { word < g.now.words }
    ensures place { result ≡ place g.now (mapped_page g.now vpage) word }
    ensures within { result < flat_size g.now }
{
    page_of(g, vpage) as usize * g.words as usize + word as usize
}

/// The backing page of a mapped virtual page.
fn page_of(g: &Geometry, vpage: u32) -> u32
    requires { IsSome (backing_page g.now vpage) }
    ensures { result ≡ mapped_page g.now vpage }
{
    match g.vpages[vpage as usize] {
        Some(vpage) => vpage.page,
        None => unreachable!(),
    }
}
