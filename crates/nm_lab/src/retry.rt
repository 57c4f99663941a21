//! A script with another retry.

ghost use Rattle.std.specs.Prelude.{◌≡◌, ◌≤◌, IfOk, IfSome, length, map};
ghost use Rattle.nm_base.specs.Geometry.{IsGeometry};
ghost use Rattle.nm_script.specs.Script.{IsScript};
ghost use Rattle.nm_lab.specs.Retry.{nodes_with, two_nodes, version_with, with_retry};

use nm_base::Geometry;
use nm_script::{Line, PlanItems, Schedule, Script};
use nm_tiers::Node;
use std::alloc::{AllocError, Global};

/// The distance of a node of the second tier: nodes share a tier where the quotients of their distances by this are equal.
const SPAN: u32 = 128;

/// The script with this retry. A version 1 script is taken as version 2 with the same tiers: a node at distance 0 and one at
/// distance 128. Condition: a number in `retry` is at most 1,000. `AllocError` comes where there is no memory for the script.
pub fn with_retry(alloc: Global, script: &Script, retry: Option<u32>) -> Result<Script, AllocError>
    requires { IfSome retry (λ r. r ≤ 1000) }
    ensures is { IfOk result (λ s. s ≡ with_retry script.now retry) }
    ensures script { IsScript script.now → IfOk result IsScript }
{
    let geometry = copied_geometry(alloc, &script.geometry)?;
    let programs = copied_programs(alloc, &script.programs)?;
    let schedule = copied_schedule(alloc, &script.schedule)?;
    let nodes = nodes_with(alloc, script, &geometry)?;
    let version = version_with(script);
    Ok(Script {
        version,
        geometry,
        programs,
        schedule,
        nodes,
        retry,
    })
}

/// The version of the script with a retry.
fn version_with(script: &Script) -> u32
    ensures { result ≡ version_with script.now }
{
    if script.version == 1 {
        2
    } else {
        script.version
    }
}

/// The nodes of the script with a retry, by its geometry.
fn nodes_with(alloc: Global, script: &Script, geometry: &Geometry) -> Result<Vec<Node>, AllocError>
    requires sound { IsGeometry geometry.now }
    requires same { geometry.now ≡ script.now.geometry }
    ensures { IfOk result (λ v. v.items ≡ nodes_with script.now) }
{
    if script.version == 1 {
        two_nodes(alloc, &geometry.tiers)
    } else {
        Vec::from_slice(alloc, &script.nodes)
    }
}

/// A node for each of two tiers.
fn two_nodes(alloc: Global, tiers: &[u32]) -> Result<Vec<Node>, AllocError>
    requires { 2 ≤ length tiers.now }
    ensures { IfOk result (λ v. v.items ≡ two_nodes tiers.now) }
{
    let mut nodes = Vec::new(alloc);
    nodes.push(Node {
        distance: 0,
        frames: tiers[0],
    })?;
    nodes.push(Node {
        distance: SPAN,
        frames: tiers[1],
    })?;
    Ok(nodes)
}

/// A geometry of its own with the same fields.
fn copied_geometry(alloc: Global, g: &Geometry) -> Result<Geometry, AllocError>
    ensures same { IfOk result (λ copy. copy ≡ g.now) }
    ensures sound { IfOk result IsGeometry }
{
    match Geometry::new(alloc, g.words, &g.tiers, g.cpus, &g.vpages) {
        Ok(copy) => Ok(copy),
        Err(_) => Err(AllocError),
    }
}

/// Programs of their own with the same lines.
fn copied_programs(alloc: Global, programs: &[Vec<Line>]) -> Result<Vec<Vec<Line>>, AllocError>
    ensures { IfOk result (λ v. map (λ p. p.items) v.items ≡ map (λ p. p.items) programs.now) }
{
    let mut all = Vec::new(alloc);
    for program in programs {
        all.push(Vec::from_slice(alloc, program)?)?;
    }
    Ok(all)
}

/// A schedule of its own with the same items.
fn copied_schedule(alloc: Global, schedule: &Schedule) -> Result<Schedule, AllocError>
    ensures { IfOk result (λ s. s ≡ schedule.now) }
{
    match schedule {
        Schedule::Serial { turns } => Ok(Schedule::Serial { turns: *turns }),
        Schedule::Shuffle { number, turns } => Ok(Schedule::Shuffle {
            number: *number,
            turns: *turns,
        }),
        Schedule::Plan { turns, items } => {
            let items = Vec::from_slice(alloc, &items.items)?;
            let items = PlanItems { items };
            Ok(Schedule::Plan {
                turns: *turns,
                items,
            })
        }
    }
}
