//! What a run holds besides its frames: its objects, what it gets from outside, and what it counts.

use crate::queue::Queue;
use p10_meaning::Cell;
use p10_store::Store;

/// The state of a run, but for its frames and the steps that are left.
#[derive(Drop)]
pub struct Outside {
    pub store: Store,
    /// The bytes that were taken from the source and not given yet.
    pub pending: Queue<u8>,
    /// The values of sensors that weren't read yet.
    pub sensors: Queue<i128>,
    /// The numbers of requests for memory that are denied.
    pub denied: Vec<u64>,
    /// How many requests were made.
    pub requests: u128,
    /// The bytes that were written and not put yet.
    pub waiting: Vec<u8>,
    /// The greatest depth of calls, and that in bytes of their frames.
    pub calls: u64,
    pub bytes: u128,
    /// Whether initialisation has ended, and how many allocations and `free`s came after that.
    pub marked: bool,
    pub after: u128,
    /// The cells with which an object is opened.
    pub cells: Vec<Cell>,
}
