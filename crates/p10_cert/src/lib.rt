//! The text of a certificate, both ways: claims to bytes and bytes to claims.
//!
//! Entry points: [`read`] gives the certificate of a text, or the first line that no certificate has; [`write`]
//! writes the one text of a certificate; [`records`] gives one function's lines after the other, without memory, and
//! [`claim`] what they claim. So the record of `func main rank 0 steps 3 calls 1 bytes 0 alloc 0`, `result 0 0` is a
//! [`FuncClaim`] of 3 steps.
//!
//! Invariant: a line is read by itself (`line`), and may come where the state of the reader says (`next`); a place
//! between two lines (`cursor`) is all that a reader keeps, and `read` collects what the reader of records gives. A
//! further kind of line is a further row, a further state and a further text. Whether a certificate's claims hold of a
//! program is left to the crates above.
#![tactic(auto)]

mod building;
mod bytes;
mod claims;
mod cursor;
mod fault;
mod hex;
pub mod laws;
mod line;
mod next;
mod numbers;
mod packing;
mod pieces;
mod reader;
mod reading;
mod record;
mod sealed;
mod sections;
mod state;
mod texts;
mod var_ranges;
mod writing;
mod writing_sealed;

pub use bytes::after;
pub use claims::{Cert, FuncClaim, LoopClaim, Rank, ValueClaim, VarRange};
pub use fault::CertFault;
pub use numbers::{GREATEST_INDEX, labelled, signed};
pub use reader::Records;
pub use reading::{claim, read, read2, records, version};
pub use record::{BadLine, FuncRecord};
pub use sealed::{Cert2, Section};
pub use var_ranges::{VarRangeReader, VarRanges};
pub use writing::write;
pub use writing_sealed::write2;
