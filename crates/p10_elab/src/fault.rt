//! Why trees come to no program.

use p10_base::{Limit, Refusal};
use std::alloc::{AllocError, AllocFailed};

/// Why the trees of roots come to no program.
#[derive(Clone, Copy, Debug, Drop)]
pub enum ElabFault {
    /// The first of the rows S1 to S30 of the subset that hold.
    Refused(Refusal),
    /// M8: something is too large.
    Over(Limit),
    /// Out of memory.
    Memory,
}

impl From<AllocError> for ElabFault {
    ghost use Rattle.std.specs.Prelude.{◌≡◌};
    ghost use Rattle.p10_elab.specs.declared.fault.ElabFault.TheVariants.{Memory};

    ghost from_gives = { λ _ fault. fault ≡ Memory };

    fn from(_error: AllocError) -> ElabFault {
        ElabFault::Memory
    }
}

impl<T: Drop> From<AllocFailed<T>> for ElabFault {
    ghost use Rattle.std.specs.Prelude.{◌≡◌};
    ghost use Rattle.p10_elab.specs.declared.fault.ElabFault.TheVariants.{Memory};

    ghost from_gives = { λ _ fault. fault ≡ Memory };

    fn from(_error: AllocFailed<T>) -> ElabFault {
        ElabFault::Memory
    }
}
