//! How members lie in a structure (C99 6.7.2.1p13).

/// How members lie in a structure.
#[derive(Clone, Copy, Debug)]
pub struct Lay {
    /// The size in bytes.
    pub bytes: u64,
    /// The alignment in bytes.
    pub alignment: u64,
    /// How many scalars they have, those of their own members included.
    pub scalars: u64,
    /// Whether a part of one is `const`.
    pub has_const: bool,
}
