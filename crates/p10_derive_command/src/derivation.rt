//! What is derived of a program, as it is reported.

use p10_base::{ListBuf, Violation};
use p10_cert::Cert;

/// What is derived of a program.
#[derive(Drop)]
pub enum Derivation {
    /// Its certificate, whose text is asked for in version 1.
    Certificate(Cert),
    /// The text of version 2 of its certificate; none where it is longer than limit M10 allows.
    Sealed(Option<ListBuf<u8>>),
    /// The violations for which there is none.
    Violations(Vec<Violation>),
}
