//! Why a text is no certificate's.

use p10_base::Limit;

/// Why a certificate was not read.
#[derive(Clone, Copy, Debug, PartialEq, Eq)]
pub enum CertFault {
    /// The first line that no certificate has after the lines before it, counted from 1. A line without LF is
    /// refused at its own number, and a text that ends early at the line after its last.
    Line(u64),
    /// A limit that was exceeded: M10, the bytes of a certificate.
    Over(Limit),
    /// Out of memory.
    Memory,
}
