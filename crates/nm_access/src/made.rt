//! What an access is made with.

/// What is done to a word.
#[derive(Clone, Copy, Debug, PartialEq, Eq)]
pub enum Touch {
    /// It is loaded.
    Load,
    /// This value is stored.
    Store(u64),
    /// This value is added, modulo 2^64.
    Add(u64),
}

/// What an access is made with.
#[derive(Clone, Copy, Debug, PartialEq, Eq)]
pub struct AccessMade {
    /// The virtual page.
    pub vpage: u32,
    /// Its backing page.
    pub page: u32,
    /// The word of the page.
    pub word: u32,
    /// What is done to it.
    pub touch: Touch,
}
