//! What is said of a certificate.

use p10_base::{Bounds, Digest, Span};

/// The verdict on a certificate.
#[derive(Clone, Copy, Debug, PartialEq, Eq)]
pub enum Verdict {
    /// All conditions hold: the bounds are the certificate's total.
    Accepted(Bounds),
    /// The first condition that fails.
    Refused {
        /// Its number.
        k: u8,
        /// Its place.
        at: Span,
    },
}

/// The verdict on the text of a certificate.
#[derive(Clone, Copy, Debug, PartialEq, Eq)]
pub enum TextVerdict {
    /// The first line that no certificate has, counted from 1.
    BadLine(u64),
    /// All conditions hold: the bounds are the certificate's total.
    Accepted(Bounds),
    /// The first condition that fails.
    Refused {
        /// Its number.
        k: u8,
        /// Its place.
        at: Span,
    },
    /// The certificate speaks of other words.
    Stale {
        /// The name of the first function whose words are others.
        at: Span,
        /// The digest of the words that the certificate speaks of.
        kept: Digest,
        /// The digest of the function's own words.
        found: Digest,
    },
}
