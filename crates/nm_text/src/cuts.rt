//! Cuts of a text: at a byte, and after a front that it begins with.

ghost use Rattle.std.specs.Prelude.{◌≡◌, ◌==◌, position, IfSome, IfNone, Some, None};
ghost use Rattle.nm_text.specs.Cuts.{cut_of, strip_of};

/// What stands before the first byte `at`, and what stands after it. `None` where `at` does not occur.
pub fn cut(text: &[u8], at: u8) -> Option<(&[u8], &[u8])>
    ensures some { IfSome result (λ parts. cut_of at text.now ≡ Some (parts.0.now, parts.1.now)) }
    ensures none { IfNone result (cut_of at text.now ≡ None) }
{
    let place = first_place(text, at)?;
    Some((&text[..place], &text[place + 1..]))
}

// Where the byte stands first.
fn first_place(text: &[u8], at: u8) -> Option<usize>
    ensures { result ≡ position (λ x. x == at) text.now }
{
    text.iter().position(|&byte| byte == at)
}

/// What stands after `front`, where the text begins with it. `None` where it begins otherwise.
pub fn strip<'a>(text: &'a [u8], front: &[u8]) -> Option<&'a [u8]>
    ensures some { IfSome result (λ rest. strip_of front.now text.now ≡ Some rest.now) }
    ensures none { IfNone result (strip_of front.now text.now ≡ None) }
{
    text.strip_prefix(front)
}
