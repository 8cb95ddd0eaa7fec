//! Why a program isn't expanded.

use p10_base::Limit;
use std::alloc::{AllocError, AllocFailed};

/// Why expansion gives no words.
#[derive(Clone, Copy)]
pub enum ExpandFault {
    /// Before a refusal there are too many nested includes (M3), words of files and of replacements (M4) or macros that are
    /// defined at once (M6).
    Over(Limit),
    /// Out of memory.
    Memory,
}

impl From<AllocError> for ExpandFault {
    ghost use Rattle.std.specs.Prelude.{◌≡◌};
    ghost use Rattle.p10_expand.specs.declared.expansion.fault.ExpandFault.TheVariants.{Memory};

    ghost from_gives = { λ _ fault. fault ≡ Memory };

    fn from(_error: AllocError) -> ExpandFault {
        ExpandFault::Memory
    }
}

impl<T: Drop> From<AllocFailed<T>> for ExpandFault {
    ghost use Rattle.std.specs.Prelude.{◌≡◌};
    ghost use Rattle.p10_expand.specs.declared.expansion.fault.ExpandFault.TheVariants.{Memory};

    ghost from_gives = { λ _ fault. fault ≡ Memory };

    fn from(_error: AllocFailed<T>) -> ExpandFault {
        ExpandFault::Memory
    }
}
