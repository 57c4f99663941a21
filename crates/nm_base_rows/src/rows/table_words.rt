//! Rows of table words, home words, shadow words and words of free frames.
use super::all_hold;
use nm_base::free_words::least_frame;
use nm_base::home_word::{home_word, named_home};
use nm_base::shadow_word::{named_shadow, shadow_frame, shadow_page, shadow_word};
use nm_base::table_word::{
    all_but, frame_of, granted_word, has_bit, has_hint, is_accessed, is_dirty, is_present,
    is_saved, is_writable, walk_mask, walked_word,
};
use nm_base::{Geometry, VPage};
use std::test::Fail;

#[test]
fn reads_bits(rt: HostRuntime) {
    // A word with one bit set, and which of the six tests it passes.
    for (word, bit) in [(1, 0), (2, 1), (4, 2), (8, 3), (16, 4), (32, 5)] {
        let passed = [
            is_present(word),
            has_hint(word),
            is_writable(word),
            is_dirty(word),
            is_accessed(word),
            is_saved(word),
        ];
        assert!(rt; passed.iter().position(|passes| *passes) == Some(bit));
    }
    assert!(rt; has_bit(1 << 63, 63));
}

#[test]
fn changes_words(rt: HostRuntime) {
    all_hold(
        &rt,
        &[
            walk_mask(false) == 16,
            walk_mask(true) == 24,
            walked_word(0x5005, false) == 0x5015,
            walked_word(0x5005, true) == 0x501d,
            granted_word(0x5021) == 0x5005,
            frame_of(0xffff_f000_0000_5021) == 5,
            all_but(1) == u64::MAX - 1,
        ],
    );
}

#[test]
fn names_homes_and_shadows(rt: HostRuntime) {
    let word = shadow_word(2, Some(9));
    all_hold(
        &rt,
        &[
            home_word(0) == 1,
            named_home(1) == Some(0),
            named_home(0).is_none(),
            word == 0x3_0000_000a,
            shadow_page(word) == 2,
            shadow_frame(word) == 9,
            named_shadow(word) == Some((2, 9)),
            named_shadow(0).is_none(),
            shadow_word(2, None) == 0,
        ],
    );
}

const PAGE: Option<VPage> = Some(VPage {
    page: 1,
    writable: false,
});

#[test]
fn places_free_frames(rt: HostRuntime) -> Result<(), Fail> {
    let g = Geometry::new(rt.alloc(), 4, &[65, 8], 1, &[None, PAGE])?;
    all_hold(
        &rt,
        &[
            g.free_words(0) == 2,
            g.free_words(1) == 1,
            g.free_words(2) == 0,
            g.backing(0).is_none(),
            g.backing(1) == Some(1),
            g.backing(2).is_none(),
            !g.may_be_written(1),
            g.is_vpage(1),
            !g.is_vpage(2),
            g.is_tier(1),
            !g.is_tier(2),
        ],
    );
    all_hold(
        &rt,
        &[
            least_frame(64, 6) == Some(65),
            least_frame(64, 0).is_none(),
            g.free_index(64) == 1,
            g.free_bit(64) == 0,
            g.free_index(66) == 0,
            g.free_bit(66) == 1,
            g.free_base(0, 1) == 64,
            g.free_base(1, 0) == 65,
        ],
    );
    Ok(())
}
