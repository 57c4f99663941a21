//! Rows of geometries.
use super::all_hold;
use nm_base::{Geometry, GeometryRefusal, VPage};
use std::test::Fail;

const MAPPED: Option<VPage> = Some(VPage {
    page: 1,
    writable: true,
});

#[test]
fn reads_a_geometry(rt: HostRuntime) -> Result<(), Fail> {
    let g = Geometry::new(rt.alloc(), 4, &[4, 8], 1, &[MAPPED, None, MAPPED])?;
    all_hold(
        &rt,
        &[
            g.words == 4,
            g.cpus == 1,
            g.tiers.len() == 2,
            g.vpages.len() == 3,
            g.pages() == 2,
            g.frames() == 12,
            g.first_frame(0) == 0,
            g.first_frame(1) == 4,
            g.tier_of(0) == 0,
            g.tier_of(3) == 0,
            g.tier_of(4) == 1,
            g.tier_of(11) == 1,
        ],
    );
    all_hold(
        &rt,
        &[
            g.next_vpage(1, 0) == Some(0),
            g.next_vpage(1, 1) == Some(2),
            g.next_vpage(1, 2) == Some(2),
            g.next_vpage(1, 3).is_none(),
            g.next_vpage(1, u32::MAX).is_none(),
            g.next_vpage(2, 0).is_none(),
            g.next_vpage(0, 0).is_none(),
        ],
    );
    Ok(())
}

#[test]
fn refuses_a_geometry(rt: HostRuntime) {
    let far = Some(VPage {
        page: 4096,
        writable: true,
    });
    let last = Some(VPage {
        page: 2,
        writable: false,
    });
    for (words, tiers, cpus, vpage, too_many) in [
        (3, [4, 8], 1, MAPPED, false),
        (1024, [4, 8], 1, MAPPED, false),
        (4, [0, 8], 1, MAPPED, false),
        (4, [4000, 4000], 1, MAPPED, false),
        (4, [4, 8], 17, MAPPED, false),
        (4, [4, 8], 1, None, false),
        (4, [4, 8], 1, far, false),
        (4, [4, 8], 1, last, true),
    ] {
        let refused = match Geometry::new(rt.alloc(), words, &tiers, cpus, &[vpage]) {
            Err(GeometryRefusal::OutOfRange(_)) => !too_many,
            Err(GeometryRefusal::TooManyPages(_)) => too_many,
            Ok(_) | Err(GeometryRefusal::Memory) => false,
        };
        assert!(rt; refused, "{words} {cpus}");
    }
}
