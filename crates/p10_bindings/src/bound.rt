//! Names that were taken out of a table.

/// A name, and what it stood for.
#[derive(Drop)]
pub struct Bound<'s, T> {
    pub name: &'s [u8],
    pub what: T,
}
