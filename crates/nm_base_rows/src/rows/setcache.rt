//! Worked values of the set-associative cache, and both caches through the trait.
use nm_setcache::SetCache;
use nm_xlat::{Translations, XlatCache};
use std::test::Fail;

#[derive(Clone, Copy)]
enum Call {
    Get(u32),
    Put(u32, u32, bool, u64),
    Clear,
    StampOf(u32),
    Next(u32),
    Drop(u32),
}

#[derive(Clone, Copy, PartialEq, Eq)]
enum Answer {
    Translation(Option<(u32, bool)>),
    Stamp(Option<u64>),
    Page(Option<u32>),
    Done,
}

fn make_call<T: Translations>(cache: &mut T, call: Call) -> Answer {
    match call {
        Call::Get(v) => Answer::Translation(cache.get(v)),
        Call::Put(v, frame, dirty, stamp) => {
            cache.put(v, frame, dirty, stamp);
            Answer::Done
        }
        Call::Clear => {
            cache.clear();
            Answer::Done
        }
        Call::StampOf(v) => Answer::Stamp(cache.stamp_of(v)),
        Call::Next(from) => Answer::Page(cache.next(from)),
        Call::Drop(v) => {
            cache.drop_entry(v);
            Answer::Done
        }
    }
}

// A cache may go to another thread.
fn passes_on<T: Send>(cache: T) -> T {
    cache
}

// Two sets of two ways have room for these pages, as a fully associative cache of four has.
const CALLS: [(Call, Answer); 15] = [
    (Call::Put(3, 13, true, 7), Answer::Done),
    (Call::Put(0, 10, false, 8), Answer::Done),
    (Call::Put(2, 12, false, 9), Answer::Done),
    (Call::Put(1, 11, true, 6), Answer::Done),
    (Call::Put(3, 23, false, 5), Answer::Done),
    (Call::Get(3), Answer::Translation(Some((23, false)))),
    (Call::Get(1), Answer::Translation(Some((11, true)))),
    (Call::Get(5), Answer::Translation(None)),
    (Call::StampOf(2), Answer::Stamp(Some(9))),
    (Call::Next(1), Answer::Page(Some(1))),
    (Call::Drop(1), Answer::Done),
    (Call::Next(1), Answer::Page(Some(2))),
    (Call::Next(4), Answer::Page(None)),
    (Call::Clear, Answer::Done),
    (Call::Next(0), Answer::Page(None)),
];

#[test]
fn both_caches_answer_alike(rt: HostRuntime) -> Result<(), Fail> {
    let mut full = passes_on(XlatCache::with_room(rt.alloc(), 4)?);
    let mut sets = passes_on(SetCache::with_room(rt.alloc(), 2, 2)?);
    for (call, answer) in CALLS {
        assert!(rt; make_call(&mut full, call) == answer);
        assert!(rt; make_call(&mut sets, call) == answer);
    }
    Ok(())
}

#[test]
fn drops_the_least_page_of_a_full_set(rt: HostRuntime) -> Result<(), Fail> {
    // Pages put into two sets of two ways, and the pages that are cached then.
    let cases: [(&[u32], &[u32]); 4] = [
        (&[4, 2, 1, 6], &[1, 4, 6]),
        (&[4, 2, 1, 0], &[0, 1, 4]),
        (&[4, 2, 1, 2], &[1, 2, 4]),
        (&[5, 1, 3, 2, 7], &[2, 5, 7]),
    ];
    for (puts, cached) in cases {
        let mut cache = SetCache::with_room(rt.alloc(), 2, 2)?;
        for page in puts {
            cache.put(*page, 9, false, 1);
        }
        let mut from = 0;
        for page in cached {
            assert!(rt; cache.next(from) == Some(*page));
            assert!(rt; *page < 8);
            from = *page + 1;
        }
        assert!(rt; cache.next(from).is_none());
    }
    Ok(())
}
