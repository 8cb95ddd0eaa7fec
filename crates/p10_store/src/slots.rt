//! The slots of a store.

/// What an object is to `free` and to a write.
#[derive(Clone, Copy, Debug, Drop)]
pub enum Provenance {
    Declared,
    Allocated,
    Literal,
}

/// An object, live or dead, as a range of the store's cells.
#[derive(Drop)]
pub struct Slot {
    /// The object's number.
    pub number: u128,
    /// How many cells stand before those of the object.
    pub start: usize,
    /// How many cells it has.
    pub len: usize,
    /// How many scalars an element has.
    pub stride: u64,
    /// How many elements it has.
    pub count: u64,
    pub live: bool,
    pub provenance: Provenance,
}
