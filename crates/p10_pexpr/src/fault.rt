//! Why there are no trees.

use p10_base::{Limit, Refusal};
use std::alloc::{AllocError, AllocFailed};

/// Why there are no trees of words.
#[derive(Clone, Copy, Debug, Drop)]
pub enum ParseFault {
    /// G1: no tree of the grammar spells the words.
    Refused(Refusal),
    /// M5: the words are nested too deeply.
    Over(Limit),
    /// Out of memory.
    Memory,
}

impl From<AllocError> for ParseFault {
    ghost use Rattle.std.specs.Prelude.{◌≡◌};
    ghost use Rattle.p10_pexpr.specs.declared.fault.ParseFault.TheVariants.{Memory};

    ghost from_gives = { λ _ fault. fault ≡ Memory };

    fn from(_error: AllocError) -> ParseFault {
        ParseFault::Memory
    }
}

impl<T: Drop> From<AllocFailed<T>> for ParseFault {
    ghost use Rattle.std.specs.Prelude.{◌≡◌};
    ghost use Rattle.p10_pexpr.specs.declared.fault.ParseFault.TheVariants.{Memory};

    ghost from_gives = { λ _ fault. fault ≡ Memory };

    fn from(_error: AllocFailed<T>) -> ParseFault {
        ParseFault::Memory
    }
}
