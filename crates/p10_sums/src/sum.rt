//! What functions cost.

ghost use Rattle.std.specs.Prelude.{◌≡◌};
ghost use Rattle.p10_sums.specs.Sums.{keeps_limit};

use p10_base::{Limit, ListBuf};

/// What a function costs: the most steps, calls and bytes of a call of it, as far as its callees and loops keep their claims.
#[derive(Clone, Copy, Debug, PartialEq, Eq)]
pub struct FuncSum {
    /// The steps of a call, up to the function's task loop, if it has one.
    pub steps: u64,
    /// The calls that are open at once, itself included.
    pub calls: u64,
    /// The bytes of their frames.
    pub bytes: u64,
    /// Whether it may allocate or free memory.
    pub alloc: bool,
    /// The steps of a turn of its task loop; 0 where it has none.
    pub turn: u64,
}

impl FuncSum {
    /// Whether no sum exceeds the greatest that is allowed.
    pub(crate) fn keeps_limit(&self) -> bool
        ensures { result ≡ keeps_limit self.now }
    {
        (self.steps <= Limit::MOST_SUM && self.calls <= Limit::MOST_SUM)
            && (self.bytes <= Limit::MOST_SUM && self.turn <= Limit::MOST_SUM)
    }
}

/// What the functions of a program cost, in program order.
#[derive(Debug, Drop)]
pub struct Sums {
    pub funcs: ListBuf<FuncSum>,
}

/// Why there are no sums.
#[derive(Clone, Copy, Debug, PartialEq, Eq)]
pub enum SumFault {
    /// A sum exceeds a limit, which is M9.
    Over(Limit),
    /// Out of memory.
    Memory,
}
