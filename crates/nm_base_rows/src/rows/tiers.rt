//! Rows of tiers.
ghost use Rattle.std.specs.Prelude.{◌≡◌};

use super::all_hold;
use nm_tiers::{Node, TierRefusal, faster, slower, tiers_from_nodes};
use std::test::Fail;

fn node(distance: u32, frames: u32) -> Node
    ensures { result.frames ≡ frames }
{
    Node { distance, frames }
}

#[test]
fn forms_tiers(rt: HostRuntime) -> Result<(), Fail> {
    let nodes = [node(0, 64), node(100, 32), node(128, 256)];
    let mixed = [node(384, 1), node(0, 2), node(399, 4), node(130, 8)];
    let four = [
        node(0, 1),
        node(128, 1),
        node(256, 1),
        node(4_294_967_295, 1),
    ];
    let nodes = tiers_from_nodes(rt.alloc(), &nodes)?;
    let mixed = tiers_from_nodes(rt.alloc(), &mixed)?;
    let four = tiers_from_nodes(rt.alloc(), &four)?;
    all_hold(
        &rt,
        &[
            nodes.as_slice() == [96, 256].as_slice(),
            mixed.as_slice() == [2, 8, 5].as_slice(),
            four.as_slice() == [1, 1, 1, 1].as_slice(),
        ],
    );
    Ok(())
}

#[test]
fn refuses_nodes(rt: HostRuntime) {
    let five = [
        node(0, 1),
        node(128, 1),
        node(256, 1),
        node(384, 1),
        node(512, 1),
    ];
    let many = match tiers_from_nodes(rt.alloc(), &five) {
        Err(TierRefusal::TooManyTiers(count)) => count == 5,
        _ => false,
    };
    let none = match tiers_from_nodes(rt.alloc(), &[]) {
        Err(TierRefusal::NoNode) => true,
        _ => false,
    };
    assert!(rt; many && none);
}

#[test]
fn steps_between_tiers(rt: HostRuntime) {
    all_hold(
        &rt,
        &[
            faster(0).is_none(),
            faster(3) == Some(2),
            slower(0, 3) == Some(1),
            slower(2, 3).is_none(),
        ],
    );
}
