//! Digests of the words that claims speak of.

use crate::ListBuf;

/// A SHA-256 digest (FIPS 180-4).
#[derive(Clone, Copy, Debug, PartialEq, Eq)]
pub struct Digest(pub [u8; 32]);

/// The digests of a program's words.
#[derive(Debug, Drop)]
pub struct Digests {
    /// One for each function, in program order.
    pub funcs: ListBuf<Digest>,
    /// Of all words outside the bodies of functions.
    pub outside: Digest,
}
