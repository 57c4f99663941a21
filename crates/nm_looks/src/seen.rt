//! What the table words of a page show.

ghost use Rattle.std.specs.Prelude.{◌≡◌, ◌<◌};
ghost use Rattle.nm_vpages.specs.VPages.{most_vpages, AreBelow};
ghost use Rattle.nm_looks.specs.Seeing.{nothing_seen, where_so, is_hot_word, is_accessed_word};

use nm_base::table_word::is_accessed;
use nm_policy::hot;
use nm_vpages::VPageSet;

/// What the table words show that were told of virtual pages of one backing page. A word of 0 shows nothing.
#[derive(Debug, Drop)]
pub struct Seen {
    /// The virtual pages whose word is not 0.
    pub mapped: VPageSet,
    /// Those of them whose frame lies in another tier than the one that was asked for.
    pub outside: VPageSet,
    /// Whether the frame of some word lies in the tier that was asked for.
    pub inside: bool,
    /// Whether some word is hot: present and accessed.
    pub hot: bool,
    /// Whether some word that is not 0 is accessed.
    pub accessed: bool,
}

impl Seen {
    /// What is seen before any word was told.
    pub fn nothing() -> Seen
        ensures { result ≡ nothing_seen }
    {
        Seen {
            mapped: VPageSet::new(),
            outside: VPageSet::new(),
            inside: false,
            hot: false,
            accessed: false,
        }
    }

    /// The same once more.
    pub fn copy(&self) -> Seen
        ensures { result ≡ self.now }
    {
        Seen {
            mapped: self.mapped.copy(),
            outside: self.outside.copy(),
            inside: self.inside,
            hot: self.hot,
            accessed: self.accessed,
        }
    }
}

/// Adds a virtual page where a test holds.
pub(crate) fn push_where(pages: &mut VPageSet, vpage: u32, test: bool)
    requires small { vpage < most_vpages }
    requires last { AreBelow vpage pages.old }
    ensures { pages.new ≡ where_so test vpage pages.old }
{
    if test {
        pages.push(vpage);
    }
}

/// Whether a word is hot.
pub(crate) fn is_hot_word(word: u64) -> bool
    ensures { result ≡ is_hot_word word }
{
    hot(word)
}

/// Whether a word is not 0, and accessed.
pub(crate) fn is_accessed_word(word: u64) -> bool
    ensures { result ≡ is_accessed_word word }
{
    word != 0 && is_accessed(word)
}
