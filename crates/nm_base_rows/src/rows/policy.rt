//! Rows of the hand, of hotness and of watermarks.
use super::all_hold;
use nm_policy::{Hand, Watermarks, enough, hot, wants_demotion};

#[test]
fn goes_round(rt: HostRuntime) {
    let mut hand = Hand::new(3);
    for page in [0, 1, 2, 0, 1] {
        assert!(rt; hand.page() == page);
        hand.advance();
    }
    let mut only = Hand::new(1);
    only.advance();
    assert!(rt; only.page() == 0);
}

#[test]
fn reads_hotness(rt: HostRuntime) {
    for (word, is_hot) in [
        (0x5015, true),
        (0x11, true),
        (0x5005, false),
        (0x10, false),
        (0x9, false),
        (0, false),
    ] {
        assert!(rt; hot(word) == is_hot, "{word:x}");
    }
}

#[test]
fn marks_tiers(rt: HostRuntime) {
    for (n, min) in [(1, 1), (64, 1), (128, 2), (4096, 64)] {
        let w = Watermarks::of(n);
        assert!(rt;
            w.min == min && w.low == 2 * min && w.high == 3 * min,
            "{n}"
        );
    }
    let w = Watermarks::of(128);
    all_hold(
        &rt,
        &[
            wants_demotion(4, w),
            !wants_demotion(5, w),
            !enough(5, w),
            enough(6, w),
        ],
    );
}
