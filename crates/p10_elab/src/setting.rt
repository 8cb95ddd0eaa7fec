//! What doesn't change while roots are gone over.

use p10_elabd::Storage;
use p10_heads::Heads;
use std::alloc::Global;

/// What doesn't change while roots are gone over.
#[derive(Drop)]
pub(crate) struct Setting<'h, 's> {
    pub alloc: Global,
    /// What the roots define.
    pub heads: &'h Heads<'s>,
}

/// What the declarators of a declaration share.
#[derive(Clone, Copy, Debug)]
pub(crate) struct Shared {
    pub storage: Storage,
    /// Whether they declare sensors.
    pub sensor: bool,
}
