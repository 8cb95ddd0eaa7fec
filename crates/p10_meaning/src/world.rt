//! What a run of a program gets from outside.

use p10_base::ListBuf;

/// The world of a run: what it reads, which of its requests for memory are denied, and what its sensors give.
#[derive(Debug, Drop)]
pub struct World {
    /// The bytes of the input, each from 0 to 255.
    pub input: ListBuf<u8>,
    /// The numbers of the requests that are denied, counted from 1.
    pub denied: ListBuf<u64>,
    /// What the reads of sensors give, one after the other, each from -2^63 to 2^64 - 1; 0 where none is left.
    pub sensors: ListBuf<i128>,
}
