//! Rows of flat memory.
ghost use Rattle.std.specs.Prelude.{◌<◌, IfOk, All};

use super::all_hold;
use nm_base::{Geometry, VPage};
use nm_flat::{Access, AccessKind, FlatMemory, own_part, place_of, replay, word_count};
use std::alloc::Global;
use std::test::Fail;

const fn load(cpu: u32, word: u32) -> Access {
    Access {
        cpu,
        vpage: 0,
        word,
        kind: AccessKind::Load(0),
    }
}

#[test]
fn parts_of_two_processors(rt: HostRuntime) -> Result<(), Fail> {
    let list = [load(0, 0), load(1, 1), load(0, 2), load(1, 3), load(1, 4)];
    let first = own_part(rt.alloc(), &list, 0)?;
    let second = own_part(rt.alloc(), &list, 1)?;
    let third = own_part(rt.alloc(), &list, 2)?;
    all_hold(
        &rt,
        &[
            first.as_slice() == [load(0, 0), load(0, 2)].as_slice(),
            second.as_slice() == [load(1, 1), load(1, 3), load(1, 4)].as_slice(),
            third.is_empty(),
        ],
    );
    Ok(())
}

const FIRST: Option<VPage> = Some(VPage {
    page: 0,
    writable: true,
});

const SECOND: Option<VPage> = Some(VPage {
    page: 1,
    writable: true,
});

/// Accesses by virtual page and word, of which there are three and four.
fn accesses_of(alloc: Global, list: &[(u32, u32, AccessKind)]) -> Result<Vec<Access>, Fail>
    ensures { IfOk result (λ v. All (λ a. (a.vpage < 3) × (a.word < 4)) v.items) }
{
    let mut accesses = Vec::new(alloc);
    for (vpage, word, kind) in list {
        accesses.push(Access {
            cpu: 0,
            vpage: *vpage % 3,
            word: *word % 4,
            kind: *kind,
        })?;
    }
    Ok(accesses)
}

/// The memory after accesses, where virtual pages 0 and 1 are page 0, and 2 is page 1.
fn replayed(alloc: Global, list: &[(u32, u32, AccessKind)]) -> Result<Option<FlatMemory>, Fail> {
    let accesses = accesses_of(alloc, list)?;
    let g = Geometry::new(alloc, 4, &[8, 8], 2, &[FIRST, FIRST, SECOND])?;
    Ok(replay(alloc, &g, &accesses)?)
}

#[test]
fn replays(rt: HostRuntime) -> Result<(), Fail> {
    use AccessKind::{Add, Load, Store};
    const ALL: u64 = 18446744073709551615;
    let rows: [(&[(u32, u32, AccessKind)], &[u64]); 6] = [
        (
            &[(0, 0, Store(5)), (0, 0, Load(5))],
            &[5, 0, 0, 0, 0, 0, 0, 0],
        ),
        (&[(0, 0, Load(1))], &[]),
        (
            &[(0, 3, Store(7)), (1, 3, Load(7))],
            &[0, 0, 0, 7, 0, 0, 0, 0],
        ),
        (&[(0, 3, Store(7)), (2, 3, Load(7))], &[]),
        (
            &[
                (2, 1, Add { gave: 0, plus: 5 }),
                (2, 1, Add { gave: 5, plus: ALL }),
                (2, 1, Load(4)),
            ],
            &[0, 0, 0, 0, 0, 4, 0, 0],
        ),
        (&[(0, 0, Add { gave: 1, plus: 5 })], &[]),
    ];
    for (accesses, words) in rows {
        let answer = match replayed(rt.alloc(), accesses)? {
            Some(memory) => memory.words,
            None => Vec::new(rt.alloc()),
        };
        assert!(rt; answer.as_slice() == words);
    }
    Ok(())
}

#[test]
fn places_words(rt: HostRuntime) -> Result<(), Fail> {
    let g = Geometry::new(rt.alloc(), 4, &[8, 8], 2, &[FIRST, FIRST, SECOND])?;
    all_hold(
        &rt,
        &[
            word_count(&g) == 8,
            place_of(&g, 1, 3) == 3,
            place_of(&g, 2, 1) == 5,
        ],
    );
    Ok(())
}
