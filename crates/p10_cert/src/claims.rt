//! What a certificate claims.

use crate::var_ranges::VarRanges;
use p10_base::{Bounds, ListBuf};
use p10_range::Range;

/// A certificate: what is claimed of each function, in program order, and of the whole program.
#[derive(Debug, Drop)]
pub struct Cert {
    /// The functions, in program order.
    pub funcs: ListBuf<FuncClaim>,
    /// The bounds of the whole program.
    pub total: Bounds,
}

/// What is claimed of one function.
#[derive(Debug, Drop)]
pub struct FuncClaim {
    /// The function's name, in bytes (C99 6.4.2.1).
    pub name: ListBuf<u8>,
    /// The function's rank: each function that it calls has a lower one.
    pub rank: u32,
    /// The most steps of a call.
    pub steps: u64,
    /// The most calls that are open at once in a call, itself included.
    pub calls: u64,
    /// The most bytes of the stack in a call.
    pub bytes: u64,
    /// Whether a call may allocate or free memory.
    pub alloc: bool,
    /// The parameters, in order.
    pub params: ListBuf<ValueClaim>,
    /// The result.
    pub result: ValueClaim,
    /// The loops, in text order.
    pub loops: ListBuf<LoopClaim>,
}

/// What is claimed of a parameter or of a result.
#[derive(Clone, Copy, Debug, PartialEq, Eq)]
pub enum ValueClaim {
    /// A whole number of this range.
    Ints(Range),
    /// A pointer, of which nothing is claimed.
    Pointer,
    /// No value: of a result alone.
    Void,
}

/// What is claimed of one loop.
///
/// The loops of a function stand in one list, in text order, and each has its own depth: so loops that are nested to any
/// depth are read, kept and let go without recursion.
#[derive(Debug, Drop)]
pub struct LoopClaim {
    /// How many loops of the function the loop stands in.
    pub depth: u32,
    /// Why the loop ends.
    pub rank: Rank,
    /// The most turns of the loop, and for the task loop the most steps of a turn.
    pub turns: u64,
    /// The ranges of variables at the loop's head, the variables rising.
    pub inv: VarRanges,
}

/// Why a loop ends: a number that falls with each turn and is at least 1 where the body is entered.
#[derive(Clone, Copy, Debug, PartialEq, Eq)]
pub enum Rank {
    /// `bound` less the variable.
    Up {
        /// The variable's number.
        var: u32,
        /// What the variable rises to.
        bound: i128,
    },
    /// The variable less `bound`.
    Down {
        /// The variable's number.
        var: u32,
        /// What the variable falls to.
        bound: i128,
    },
    /// 1: the loop's body is entered once at most.
    One,
    /// The task loop, which has no end.
    Task,
}

/// The range of a variable at the head of a loop.
#[derive(Clone, Copy, Debug, PartialEq, Eq)]
pub struct VarRange {
    /// The variable's number in its function.
    pub var: u32,
    /// Where its value lies.
    pub range: Range,
}
