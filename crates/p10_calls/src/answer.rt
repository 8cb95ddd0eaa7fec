//! What is answered where functions are put in order.

use p10_base::{ListBuf, Span};

/// The ranks of a program's functions.
#[derive(Debug, Drop)]
pub struct Order {
    /// A rank for each function, in the order of the functions: 0 where it calls none, and else one more than the greatest rank of
    /// those that it calls.
    pub ranks: ListBuf<u32>,
}

/// Why functions have no ranks.
#[derive(Debug, Drop)]
pub enum CallFault {
    /// Some calls lie on cycles of calls. It has the spans of the names of all of them, in the order of the functions and of the text.
    Cycle(ListBuf<Span>),
    /// Out of memory.
    Memory,
}

/// What the calls of a program come to: ranks, or the names of those on cycles.
#[derive(Drop)]
pub(crate) enum Ordered {
    Ranked(ListBuf<u32>),
    Cyclic(ListBuf<Span>),
}
