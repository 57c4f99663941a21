//! Scripts that are generated from a number.

ghost use Rattle.std.specs.Prelude.{◌≡◌, ℕ, ◌++◌, ◌∷◌, [], ◌/◌, ◌^◌, ◌<◌, ◌≤◌, ◌-◌, IfOk, OnOk, map, vec_len, slice_set, slice_index_or};
ghost use Rattle.nm_script.specs.Script.{IsScript};
ghost use Rattle.nm_gen.specs.Generated.{generated, geometry, programs_of, line_drawn, next_draw, one_to_one};
ghost use Rattle.std.specs.List.{range_with_len};

use nm_base::{Geometry, GeometryRefusal, VPage};
use nm_script::{Line, MOST_TURNS, Schedule, Script};
use std::alloc::{AllocError, Global};

/// The pages that most accesses go to.
const HOT_PAGES: u64 = 80;
/// The pages behind them.
const COLD_PAGES: u64 = 160;
/// The processors.
const CPUS: u32 = 4;

/// The script of a number, with `size` lines in all, 1 to 100,000: a machine of 64 fast and 256 slow frames of 512
/// words, four processors in turns drawn by the same number, and 240 pages, of which the first 80 get four of five
/// accesses. One of four accesses is a store.
pub fn generate(alloc: Global, number: u64, size: u32) -> Result<Script, AllocError>
    requires low { 1 ≤ size }
    requires high { size ≤ 100000 }
    ensures { IfOk result (λ s. s ≡ generated number size) }
{
    let geometry = make_geometry(alloc)?;
    let programs = make_programs(alloc, number, size)?;
    Ok(Script {
        version: 1,
        geometry,
        programs,
        schedule: Schedule::Shuffle {
            number,
            turns: MOST_TURNS,
        },
        nodes: Vec::new(alloc),
        retry: None,
    })
}

/// A generated script is one that a text can say.
pub fn is_script()
    ensures { (n size : ℕ) → n < 2 ^ 64 → size ≤ 100000 → IsScript (generated n size) }
{}

/// The programs of the four processors.
fn make_programs(alloc: Global, number: u64, size: u32) -> Result<Vec<Vec<Line>>, AllocError>
    requires { size ≤ 100000 }
    ensures { IfOk result (λ v. map (λ p. p.items) v.items ≡ programs_of number size) }
{
    let mut programs = vec![in alloc;
        Vec::new(alloc),
        Vec::new(alloc),
        Vec::new(alloc),
        Vec::new(alloc),
    ]?;
    let mut x = number;
    for i in 0..size {
        x = next(x);
        push_line(&mut programs, (i % CPUS) as usize, make_line(x >> 33, i))?;
    }
    Ok(programs)
}

/// Writes a line at the end of a program.
fn push_line(programs: &mut Vec<Vec<Line>>, p: usize, line: Line) -> Result<(), AllocError>
    requires { p < vec_len programs.old }
    ensures { OnOk result (map (λ v. v.items) programs.new.items ≡ slice_set (map (λ v. v.items) programs.old.items) p
        (slice_index_or (map (λ v. v.items) programs.old.items) p [] ++ line ∷ [])) }
{
    programs[p].push(line)?;
    Ok(())
}

/// The random number after `x`.
pub fn next(x: u64) -> u64
    ensures { result ≡ next_draw x }
{
    x.wrapping_mul(6_364_136_223_846_793_005)
        .wrapping_add(1_442_695_040_888_963_407)
}

/// The line of draw `i`, counted from 0.
fn make_line(r: u64, i: u32) -> Line
    requires { i < 2 ^ 32 - 1 }
    ensures { result ≡ line_drawn r i }
{
    let v = if r / 4 % 5 < 4 {
        r / 32 % HOT_PAGES
    } else {
        HOT_PAGES + r / 32 % COLD_PAGES
    };
    let v = v as u32;
    let w = (r / 8192 % 512) as u32;
    if r % 4 == 0 {
        let x = u64::from(i) + 1;
        Line::Store { v, w, x }
    } else {
        Line::Load { v, w }
    }
}

/// The geometry of every generated script.
fn make_geometry(alloc: Global) -> Result<Geometry, AllocError>
    ensures { IfOk result (λ g. g ≡ geometry) }
{
    let vpages = make_vpages(alloc)?;
    match Geometry::new(alloc, 512, &[64, 256], CPUS, &vpages) {
        Ok(geometry) => Ok(geometry),
        Err(GeometryRefusal::Memory) => Err(AllocError),
        Err(GeometryRefusal::OutOfRange(_)) => unreachable!(),
        Err(GeometryRefusal::TooManyPages(_)) => unreachable!(),
    }
}

/// The virtual pages, each mapped to the backing page of its number.
fn make_vpages(alloc: Global) -> Result<Vec<Option<VPage>>, AllocError>
    ensures { IfOk result (λ v. v.items ≡ map one_to_one (range_with_len 0 240)) }
{
    let mut vpages = Vec::with_capacity(alloc, 240)?;
    for page in 0..240u32 {
        vpages.push(Some(VPage {
            page,
            writable: true,
        }))?;
    }
    Ok(vpages)
}
