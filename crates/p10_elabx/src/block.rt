//! Blocks that are closed.

use crate::named::Named;
use p10_bindings::Bound;

/// The names and the tags that were declared in a block, in the order in which they were declared.
#[derive(Drop)]
pub struct Block<'s> {
    pub names: Vec<Bound<'s, Named>>,
    pub tags: Vec<Bound<'s, Named>>,
}
