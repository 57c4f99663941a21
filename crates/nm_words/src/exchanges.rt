//! Exchanges on a word.

ghost use Rattle.std.specs.Prelude.{◌≡◌, ◌<◌, length, slice_index, slice_set};
ghost use Rattle.nm_words.specs.Exchanges.{changed};

/// What is done to a word, in one indivisible step.
#[derive(Clone, Copy, Debug, PartialEq, Eq)]
pub enum Change {
    /// Nothing: the word is read.
    Keep,
    /// The word is swapped with this one.
    Swap(u64),
    /// This word is stored; the old one is not read.
    Put(u64),
    /// This number is added, modulo 2^64.
    Add(u64),
    /// The bits that are not in this word are cleared.
    And(u64),
    /// The bits of this word are set.
    Or(u64),
    /// The bits of this word are turned.
    Xor(u64),
    /// Where the word is 0, this one is stored.
    Take(u64),
    /// Where the word is the first of these, the second is stored.
    IfIs(u64, u64),
}

/// The word after an exchange on it.
pub fn changed(change: Change, word: u64) -> u64
    ensures { result ≡ changed change word }
{
    match change {
        Change::Keep => word,
        Change::Swap(new) => new,
        Change::Put(new) => new,
        Change::Add(more) => word.wrapping_add(more),
        Change::And(mask) => word & mask,
        Change::Or(mask) => word | mask,
        Change::Xor(mask) => word ^ mask,
        Change::Take(new) => if word == 0 { new } else { word },
        Change::IfIs(old, new) => if word == old { new } else { word },
    }
}

/// Makes an exchange on a word of a list, and gives the word before it.
pub(crate) fn exchange_at(words: &mut [u64], i: usize, change: Change) -> u64
    requires { i < length words.old }
    ensures words { words.new ≡ slice_set words.old i (changed change (slice_index words.old i)) }
    ensures before { result ≡ slice_index words.old i }
{
    let word = words[i];
    words[i] = changed(change, word);
    word
}
