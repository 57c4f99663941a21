//! Home words: 0, or the frame that holds a backing page plus 1.

ghost use Rattle.std.specs.Prelude.{◌≡◌, ◌≤◌, ◌^◌};
ghost use Rattle.nm_base.specs.HomeWord.{home_word, named_home};

/// The home word that names this frame.
pub fn home_word(frame: u32) -> u64
    ensures { result ≡ home_word frame }
{
    u64::from(frame) + 1
}

/// The frame that a home word names, if it names one.
pub fn named_home(word: u64) -> Option<u32>
    requires { word ≤ 2 ^ 32 }
    ensures { result ≡ named_home word }
{
    if word == 0 {
        None
    } else {
        Some((word - 1) as u32)
    }
}
