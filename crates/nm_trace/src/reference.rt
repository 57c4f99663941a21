//! One memory reference of a trace.

/// A reference to a word of memory.
#[derive(Clone, Copy, Debug, PartialEq, Eq)]
pub struct Reference {
    /// The processor.
    pub cpu: u64,
    /// The byte address of the word.
    pub address: u64,
    /// What is stored, or none where the word is loaded.
    pub value: Option<u64>,
}
