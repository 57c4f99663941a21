//! An actor that has drawn almost all its numbers.

ghost use Rattle.std.specs.Prelude.{◌≡◌};
ghost use Rattle.nm_prepare.specs.Worn.{is_worn};

use nm_event::Spent;

/// The bumps at which no work begins: a piece of work makes two at most.
const WORN_BUMPS: u64 = (1 << 56) - 1;
/// The raises at which no work begins: a piece of work makes one of each virtual page, twice at most.
const WORN_RAISES: u64 = (1 << 59) - 8192;

/// Whether so much is drawn that no work begins: at least 2^56 - 1 bumps, or at least 2^59 - 8,192 raises.
pub fn is_worn(spent: Spent) -> bool
    ensures { result ≡ is_worn spent }
{
    spent.bumps >= WORN_BUMPS || spent.raises >= WORN_RAISES
}
