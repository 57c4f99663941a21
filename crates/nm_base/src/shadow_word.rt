//! Shadow words: 0, or the backing page of which a frame is the master, and the frame of its shadow.

ghost use Rattle.std.specs.Prelude.{◌≡◌, ◌<◌, ◌^◌};
ghost use Rattle.nm_base.specs.ShadowWord.{shadow_word, shadow_page, shadow_frame, named_shadow};

/// The distance of the page number from bit 0.
const PAGE_SHIFT: u32 = 32;

/// The shadow word of a master of a page with this shadow, or with none.
pub fn shadow_word(page: u32, shadow: Option<u32>) -> u64
    requires { shadow_word page shadow < 2 ^ 64 }
    ensures { result ≡ shadow_word page shadow }
{
    match shadow {
        Some(shadow) => (u64::from(page) + 1) * (1 << PAGE_SHIFT) + u64::from(shadow) + 1,
        None => 0,
    }
}

/// The page that a shadow word names.
pub fn shadow_page(word: u64) -> u32
    ensures { result ≡ shadow_page word }
{
    ((word >> PAGE_SHIFT) as u32).saturating_sub(1)
}

/// The frame of the shadow that a shadow word names.
pub fn shadow_frame(word: u64) -> u32
    ensures { result ≡ shadow_frame word }
{
    ((word % (1 << PAGE_SHIFT)) as u32).saturating_sub(1)
}

/// The page and the shadow that a shadow word names, if it names any.
pub fn named_shadow(word: u64) -> Option<(u32, u32)>
    ensures { result ≡ named_shadow word }
{
    if word == 0 {
        None
    } else {
        Some((shadow_page(word), shadow_frame(word)))
    }
}
