//! Why the source files of a program can't be gathered.

use p10_base::{Limit, Refusal, Sources};
use std::alloc::{AllocError, AllocFailed};

/// Why gathering gives no sources.
#[derive(Drop)]
pub enum GatherFault {
    /// There is no file with the name of this root.
    RootAbsent(u32),
    /// A read failed.
    Read,
    /// A file is refused by X1 to X6; the files gathered so far in their order, the refused one last.
    Refused(Refusal, Sources),
    /// A file has too many bytes (M1) or words (M2), or there are too many files (M7).
    Over(Limit),
    /// Out of memory.
    Memory,
}

/// Why a file isn't gathered.
#[derive(Clone, Copy)]
pub enum Trouble {
    /// A read failed.
    Read,
    /// The file that was gathered last is refused by X1 to X6.
    Refused(Refusal),
    /// M1, M2 or M7.
    Over(Limit),
    /// Out of memory.
    Memory,
}

impl From<AllocError> for Trouble {
    ghost use Rattle.std.specs.Prelude.{◌≡◌};
    ghost use Rattle.p10_expand.specs.declared.fault.Trouble.TheVariants.{Memory};

    ghost from_gives = { λ _ trouble. trouble ≡ Memory };

    fn from(_error: AllocError) -> Trouble {
        Trouble::Memory
    }
}

impl<T: Drop> From<AllocFailed<T>> for Trouble {
    ghost use Rattle.std.specs.Prelude.{◌≡◌};
    ghost use Rattle.p10_expand.specs.declared.fault.Trouble.TheVariants.{Memory};

    ghost from_gives = { λ _ trouble. trouble ≡ Memory };

    fn from(_error: AllocFailed<T>) -> Trouble {
        Trouble::Memory
    }
}
