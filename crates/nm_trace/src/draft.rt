//! A script that is being made from references.

ghost use Rattle.std.specs.Prelude.{◌≡◌, ◌+◌, ◌≤◌, ◌<◌, ◌++◌, ◌∷◌, [], ℕ, List, length, map, vec_len, nat_eq, slice_set, slice_index_or, IfOk, OnOk, IfErr};
ghost use Rattle.std.specs.List.{range_with_len, AllByRecursion};
ghost use Rattle.nm_trace.specs.References.{IsReference};
ghost use Rattle.nm_trace.specs.Imports.{referenced_page, referenced_word, page_number, line_for, access_with, frames_for, own_page, script_for, pages_seen};
ghost use Rattle.nm_trace.specs.Drafts.{IsDraftOf, IsNotTaken};
ghost use Rattle.nm_base.specs.Geometry.{IsGeometry, made};
ghost use Rattle.indexmap.specs.IndexSet.{insert_key};

use crate::reference::Reference;
use indexmap::IndexSet;
use nm_base::{Geometry, GeometryRefusal, VPage};
use nm_script::{Line, MOST_TURNS, Schedule, Script};
use std::alloc::{AllocError, Global};

/// The most processors.
const CPUS: usize = 16;
/// The bytes of a page.
const PAGE_BYTES: u64 = 4096;
/// The bytes of a word.
const WORD_BYTES: u64 = 8;
/// Frames beside those of the pages and one for each processor.
const SPARE_FRAMES: usize = 9;

/// What is kept of the references that were read so far.
#[derive(Drop)]
pub struct Draft {
    /// The pages, in the order in which they were first seen.
    pages: IndexSet<u64>,
    /// One more than the greatest processor.
    cpus: u32,
    /// The lines of each of 16 processors.
    programs: Vec<Vec<Line>>,
}

/// Why a reference was not taken.
#[derive(Clone, Copy, Debug, PartialEq, Eq)]
pub enum Untaken {
    /// The frames are too few for the pages and processors with it.
    TooManyPages,
    /// There is no memory for it.
    Memory,
}

impl Draft {
    /// No reference.
    pub fn new(alloc: Global) -> Result<Draft, AllocError>
        ensures { IfOk result (λ d. IsDraftOf d []) }
    {
        let mut programs = Vec::with_capacity(alloc, CPUS)?;
        for cpu in 0..CPUS {
            programs.push(Vec::new(alloc))?;
        }
        Ok(Draft {
            pages: IndexSet::new(alloc),
            cpus: 0,
            programs,
        })
    }

    /// Takes one more reference, on a machine of this many frames.
    pub fn take(&mut self, reference: Reference, frames: u32) -> Result<(), Untaken>
        requires draft { (refs : List Reference) × IsDraftOf self.old refs }
        requires reference { IsReference reference }
        requires few { frames ≤ 4096 }
        ensures taken { (refs : List Reference) → IsDraftOf self.old refs
            → OnOk result (IsDraftOf self.new (refs ++ reference ∷ []) × (frames_for (refs ++ reference ∷ []) ≤ frames)) }
        ensures untaken { (refs : List Reference) → IsDraftOf self.old refs → IfErr result (IsNotTaken frames (refs ++ reference ∷ [])) }
    {
        let v = number_of(&mut self.pages, reference.address / PAGE_BYTES)?;
        self.cpus = self.cpus.max(reference.cpu as u32 + 1);
        if self.pages.len() + self.cpus as usize + SPARE_FRAMES > frames as usize {
            return Err(Untaken::TooManyPages);
        }
        let line = line_of(v as u32, reference);
        push_line(&mut self.programs, reference.cpu as usize, line)
    }

    /// The script, for tiers of these sizes.
    pub fn finish(self, alloc: Global, fast: u32, slow: u32) -> Result<Script, AllocError>
        requires fast { 1 ≤ fast }
        requires slow { 1 ≤ slow }
        requires sum { fast + slow ≤ 4096 }
        requires cpus { (1 ≤ self.cpus) × (self.cpus ≤ 16) }
        requires pages { 1 ≤ length self.pages.keys }
        requires room { length self.pages.keys + self.cpus + 9 ≤ fast + slow }
        ensures script { (refs : List Reference) → IsDraftOf self refs → IfOk result (λ s. s ≡ script_for fast slow refs) }
        ensures geometry { IfOk result (λ s. IsGeometry s.geometry) }
    {
        let cpus = self.cpus;
        let pages = self.pages.len() as u32;
        let geometry = make_geometry(alloc, fast, slow, cpus, pages)?;
        let mut programs = self.programs;
        programs.truncate(cpus as usize);
        Ok(Script {
            version: 1,
            geometry,
            programs,
            schedule: Schedule::Serial { turns: MOST_TURNS },
            nodes: Vec::new(alloc),
            retry: None,
        })
    }
}

/// The number of a page, which may be a new one.
fn number_of(pages: &mut IndexSet<u64>, page: u64) -> Result<usize, Untaken>
    ensures keys { OnOk result (pages.new.keys ≡ insert_key nat_eq pages.old.keys page) }
    ensures number { IfOk result (λ i. (i ≡ page_number pages.old.keys page) × (i < length pages.new.keys)) }
    ensures memory { IfErr result (λ e. e ≡ Untaken.Memory) }
{
    match pages.insert_full(page) {
        Ok((number, _)) => Ok(number),
        Err(_) => Err(Untaken::Memory),
    }
}

/// The line of a reference to a page of this number.
fn line_of(v: u32, reference: Reference) -> Line
    ensures { result ≡ access_with v (referenced_word reference) reference.value }
{
    let w = (reference.address % PAGE_BYTES / WORD_BYTES) as u32;
    match reference.value {
        None => Line::Load { v, w },
        Some(x) => Line::Store { v, w, x },
    }
}

/// Writes a line at the end of a program.
fn push_line(programs: &mut Vec<Vec<Line>>, cpu: usize, line: Line) -> Result<(), Untaken>
    requires { cpu < vec_len programs.old }
    ensures pushed { OnOk result (map (λ v. v.items) programs.new.items ≡ slice_set (map (λ v. v.items) programs.old.items) cpu
        (slice_index_or (map (λ v. v.items) programs.old.items) cpu [] ++ line ∷ [])) }
    ensures memory { IfErr result (λ e. e ≡ Untaken.Memory) }
{
    match programs[cpu].push(line) {
        Ok(()) => Ok(()),
        Err(_) => Err(Untaken::Memory),
    }
}

/// The geometry for this many processors and pages.
fn make_geometry(
    alloc: Global,
    fast: u32,
    slow: u32,
    cpus: u32,
    pages: u32,
) -> Result<Geometry, AllocError>
    requires fast { 1 ≤ fast }
    requires slow { 1 ≤ slow }
    requires sum { fast + slow ≤ 4096 }
    requires cpus { (1 ≤ cpus) × (cpus ≤ 16) }
    requires pages { 1 ≤ pages }
    requires room { pages + cpus + 9 ≤ fast + slow }
    ensures { IfOk result (λ g. (g ≡ made 512 (fast ∷ slow ∷ []) cpus (map own_page (range_with_len 0 pages))) × IsGeometry g) }
{
    let vpages = make_vpages(alloc, pages)?;
    match Geometry::new(alloc, 512, &[fast, slow], cpus, &vpages) {
        Ok(geometry) => Ok(geometry),
        Err(GeometryRefusal::Memory) => Err(AllocError),
        Err(GeometryRefusal::OutOfRange(_)) => unreachable!(),
        Err(GeometryRefusal::TooManyPages(_)) => unreachable!(),
    }
}

/// The virtual pages, each mapped to the backing page of its number.
fn make_vpages(alloc: Global, pages: u32) -> Result<Vec<Option<VPage>>, AllocError>
    ensures { IfOk result (λ v. v.items ≡ map own_page (range_with_len 0 pages)) }
{
    let mut vpages = Vec::with_capacity(alloc, pages as usize)?;
    for page in 0..pages {
        vpages.push(Some(VPage {
            page,
            writable: true,
        }))?;
    }
    Ok(vpages)
}
