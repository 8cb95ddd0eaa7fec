//! Declared names.

/// A declared name.
#[derive(Drop)]
pub struct Entry<'s, T> {
    pub name: &'s [u8],
    /// The place of its spelling among the spellings.
    pub spelling: usize,
    /// What it stands for.
    pub what: T,
    /// The place of the entry that was the last one with this spelling before.
    pub earlier: Option<usize>,
}
