//! Worked values of the fully associative cache.
use super::all_hold;
use nm_xlat::{Translations, XlatCache};
use std::test::Fail;

// The entries of a table are put by the trait's `put` alone.
fn put_all<T: Translations>(cache: &mut T, entries: &[(u32, u32, bool, u64)]) {
    for &(page, frame, dirty, stamp) in entries {
        cache.put(page, frame, dirty, stamp);
    }
}

#[test]
fn drops_the_least_page_where_full(rt: HostRuntime) -> Result<(), Fail> {
    let mut cache = XlatCache::with_room(rt.alloc(), 2)?;
    put_all(
        &mut cache,
        &[(3, 13, true, 7), (1, 11, false, 8), (2, 12, false, 9)],
    );
    all_hold(
        &rt,
        &[
            cache.get(1).is_none(),
            cache.get(2) == Some((12, false)),
            cache.get(3) == Some((13, true)),
        ],
    );

    // A new page below every other still takes the place of the least.
    cache.put(0, 10, true, 6);
    for (from, next) in [(0, Some(0)), (1, Some(3)), (3, Some(3)), (4, None)] {
        assert!(rt; cache.next(from) == next, "from {from}");
    }
    Ok(())
}

#[test]
fn replaces_and_drops_by_page(rt: HostRuntime) -> Result<(), Fail> {
    let mut cache = XlatCache::with_room(rt.alloc(), 2)?;
    put_all(
        &mut cache,
        &[(3, 13, true, 7), (1, 11, false, 8), (3, 14, false, 9)],
    );
    for (page, stamp) in [(1, Some(8)), (2, None), (3, Some(9))] {
        assert!(rt; cache.stamp_of(page) == stamp, "page {page}");
    }
    cache.drop_entry(2);
    cache.drop_entry(1);
    assert!(rt; cache.get(1).is_none());
    assert!(rt; cache.get(3) == Some((14, false)));
    cache.clear();
    assert!(rt; cache.next(0).is_none());
    Ok(())
}
