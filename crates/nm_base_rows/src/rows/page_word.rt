//! Rows of page words.
use super::all_hold;
use nm_base::PageWord;
use std::test::Fail;

#[test]
fn reads_and_writes_words(rt: HostRuntime) -> Result<(), Fail> {
    let word = PageWord::of_word(0x5015).ok_or("0x5015 is a page word")?;
    let expected = PageWord::Present {
        frame: 5,
        hint: false,
        writable: true,
        dirty: false,
        accessed: true,
        saved: false,
    };
    all_hold(
        &rt,
        &[
            word == expected,
            word.to_word() == 0x5015,
            PageWord::of_word(0) == Some(PageWord::Absent),
            PageWord::Absent.to_word() == 0,
        ],
    );
    for stray in [0x40, 0x5014, 0x1000_0000_0001, 0x8000_0000_0000_0001] {
        assert!(rt; PageWord::of_word(stray).is_none(), "{stray:x}");
    }
    Ok(())
}
