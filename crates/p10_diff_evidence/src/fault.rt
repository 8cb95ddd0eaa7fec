//! Why a section gives no evidence.

use std::alloc::AllocError;

/// Why a section was not read.
#[derive(Clone, Copy, Debug, PartialEq, Eq)]
pub enum DiffFault {
    /// The first line of another form, counted from 1.
    Line(u64),
    /// Out of memory.
    Memory,
}

impl From<AllocError> for DiffFault {
    ghost use Rattle.std.specs.Prelude.{◌≡◌};
    ghost use Rattle.p10_diff_evidence.specs.declared.fault.DiffFault.TheVariants.{Memory};

    ghost from_gives = { λ _ fault. fault ≡ Memory };

    fn from(_: AllocError) -> DiffFault {
        DiffFault::Memory
    }
}
