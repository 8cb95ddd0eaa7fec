//! Functions and objects that the roots define.

use p10_base::At;

/// A function or an object that is defined.
#[derive(Debug, Drop)]
pub struct Head<'s> {
    /// The number of its root.
    pub root: u32,
    pub name: &'s [u8],
    /// Where the name stands at its definition.
    pub at: At,
    /// Whether it is internal to its root (C99 6.2.2).
    pub internal: bool,
    /// Whether it stands in a block.
    pub in_block: bool,
}
