//! Certificates of version 2: claims, the digests of the words that they speak of, and sections.

use crate::claims::Cert;
use p10_base::{Digest, ListBuf};

/// A certificate of version 2.
#[derive(Debug, Drop)]
pub struct Cert2 {
    /// What is claimed.
    pub base: Cert,
    /// The digests of the functions' words, in program order.
    pub digests: ListBuf<Digest>,
    /// The digest of the words outside the bodies of functions.
    pub outside: Digest,
    /// The sections, whose names rise by their bytes.
    pub sections: ListBuf<Section>,
}

/// Lines of a certificate that a reader may skip.
#[derive(Debug, Drop)]
pub struct Section {
    /// The section's name: 1 to 32 lower-case letters, digits and `_`.
    pub name: ListBuf<u8>,
    /// The lines without their LF, of the bytes 32 to 126.
    pub lines: ListBuf<ListBuf<u8>>,
}
