//! What the lines of a program gave.

/// What a line of a processor's program gave when it was made.
#[derive(Clone, Copy, Debug, PartialEq, Eq)]
pub enum LineResult {
    /// A load gave this value.
    Loaded(u64),
    /// A store was made.
    Stored,
    /// An add was made, and the word had this value before.
    Added(u64),
    /// The load of this number, the first being 1, gave the value that was awaited.
    Met(u32),
    /// As many loads as the line allows, this number, gave other values.
    Missed(u32),
}
