//! What a fault is made with, and how it ends.

/// What a fault is made with.
#[derive(Clone, Copy, Debug, PartialEq, Eq)]
pub struct FaultMade {
    /// The virtual page.
    pub vpage: u32,
    /// Its backing page.
    pub page: u32,
}

/// The outcome of a fault.
#[derive(Clone, Copy, Debug, PartialEq, Eq)]
pub enum FaultEnd {
    /// The page had no home. It was given a frame of zeroes, and the virtual page is mapped to it.
    Demand,
    /// The page had a home, to which the virtual page is mapped.
    Alias,
    /// Under the lock the word was found as the fault would leave it.
    Ready,
    /// The right to write was granted, and this shadow was given up, if there was one.
    Granted(Option<u32>),
}
