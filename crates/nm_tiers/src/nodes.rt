//! Nodes of memory, and the tiers that they form.

ghost use Rattle.std.specs.Prelude.{◌≡◌, ℕ, ◌^◌, ◌<◌, ◌≤◌, ◌↔◌, length, sum, [], IfOk, IfSome, Err};
ghost use Rattle.nm_tiers.specs.Tiers.{frames_of, frames_at, quotients_of, tiers_of, tier_count, AreQuotients, next_quotient_of};

use std::alloc::{AllocError, Global};
use thiserror::Error;

/// A node of memory.
#[derive(Clone, Copy, Debug, PartialEq, Eq)]
pub struct Node {
    /// How far the node is: the greater, the slower its memory.
    pub distance: u32,
    /// The frames that the node adds to its tier.
    pub frames: u32,
}

/// Why nodes form no tiers.
#[derive(Debug, Drop, Error)]
pub enum TierRefusal {
    /// There is no node.
    #[error("NoNode")]
    NoNode,
    /// The nodes would form this many tiers, which are more than four.
    #[error("TooManyTiers")]
    TooManyTiers(u32),
    /// There is no memory for the list of tiers.
    #[error("Memory")]
    Memory,
}

/// Nodes whose distances have the same quotient by this number share a tier.
const SPAN: u32 = 128;
/// There are at most this many tiers.
const MOST_TIERS: u32 = 4;

/// The frames of each tier that the nodes form, the fastest tier first.
///
/// Nodes with equal `distance / 128` share a tier, tiers come by ascending quotient, and frames are summed.
/// `NoNode` comes exactly where the list is empty. `TooManyTiers` carries the number of different quotients, and
/// comes exactly where it is above four. `Memory` comes where there is none for the list.
pub fn tiers_from_nodes(alloc: Global, nodes: &[Node]) -> Result<Vec<u32>, TierRefusal>
    requires { frames_of nodes.now ≤ 4096 }
    ensures tiers { IfOk result (λ v. v.items ≡ tiers_of nodes.now) }
    ensures count { IfOk result (λ v. (1 ≤ length v.items) × (length v.items ≤ 4)) }
    // No frame is lost, and none is counted twice.
    ensures frames { IfOk result (λ v. sum v.items ≡ frames_of nodes.now) }
    ensures no_node { (result ≡ Err TierRefusal.NoNode) ↔ (nodes.now ≡ []) }
    ensures too_many { (n : ℕ) → (result ≡ Err (TierRefusal.TooManyTiers n))
        ↔ ((n ≡ tier_count nodes.now) × (4 < n)) }
    // The quotients that tiers go by: ascending, and exactly those of the nodes.
    ensures quotients { AreQuotients nodes.now (quotients_of nodes.now) }
{
    if nodes.is_empty() {
        return Err(TierRefusal::NoNode);
    }
    let count = count_tiers(nodes);
    if count > MOST_TIERS {
        return Err(TierRefusal::TooManyTiers(count));
    }
    form_tiers(alloc, nodes).map_err(|_| TierRefusal::Memory)
}

/// How many tiers the nodes would form.
#[tactic(auto, using(crate::proofs::Quotients::walk))]
fn count_tiers(nodes: &[Node]) -> u32
    ensures { result ≡ tier_count nodes.now }
{
    let mut count = 0;
    let mut from = 0;
    while let Some(quotient) = next_quotient(nodes, from) {
        count += 1;
        from = quotient + 1;
    }
    count
}

/// The frames of each tier.
#[tactic(auto, using(crate::proofs::Quotients::walk))]
fn form_tiers(alloc: Global, nodes: &[Node]) -> Result<Vec<u32>, AllocError>
    requires { frames_of nodes.now ≤ 4096 }
    ensures { IfOk result (λ v. v.items ≡ tiers_of nodes.now) }
{
    let mut tiers = Vec::new(alloc);
    let mut from = 0;
    while let Some(quotient) = next_quotient(nodes, from) {
        tiers.push(count_frames(nodes, quotient))?;
        from = quotient + 1;
    }
    Ok(tiers)
}

/// The least quotient of the nodes that is at least `from`.
fn next_quotient(nodes: &[Node], from: u32) -> Option<u32>
    ensures next { result ≡ next_quotient_of nodes.now from }
    ensures narrow { IfSome result (λ q. q < 2 ^ 25) }
{
    nodes
        .iter()
        .map(|node| node.distance / SPAN)
        .filter(|quotient| *quotient >= from)
        .min()
}

/// The frames of the nodes with this quotient.
fn count_frames(nodes: &[Node], quotient: u32) -> u32
    requires { frames_of nodes.now ≤ 4096 }
    ensures { result ≡ frames_at nodes.now quotient }
{
    nodes
        .iter()
        .filter(|node| node.distance / SPAN == quotient)
        .map(|node| node.frames)
        .sum()
}
