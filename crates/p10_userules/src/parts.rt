//! What a walk over a function leaves: stretches of the list of occurrences, and what blocks declare.

use crate::occurrences::Referent;
use p10_base::ListBuf;

/// Occurrences that follow one another: from the place `start` of the list of all up to the place `end`.
#[derive(Clone, Copy, Debug)]
pub struct Stretch {
    pub start: usize,
    pub end: usize,
}

/// What is known of a block.
#[derive(Drop)]
pub struct BlockParts {
    /// What it declares.
    pub declared: ListBuf<Referent>,
    /// The stretches of the outermost blocks in it that are reached without entering a loop.
    pub nested: ListBuf<Stretch>,
}
