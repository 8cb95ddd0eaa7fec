//! What comes of the replacement of macros.

use p10_base::{Refusal, Word};
use std::alloc::{AllocError, AllocFailed};

/// The words of a run after every use of a macro was replaced.
#[derive(Drop)]
pub struct Replaced<'s> {
    /// The words. One that a macro gave has the place of the name in the use of the outermost macro.
    pub words: Vec<Word<'s>>,
    /// How many words of replacements may still be made.
    pub left: u64,
}

/// Why the uses of macros aren't replaced.
#[derive(Clone, Copy)]
pub enum ReplaceFault {
    /// D6, D7 or D8 at the name in the use of the outermost macro.
    Refused(Refusal),
    /// More words of replacements than may be made.
    TooMany,
    /// Out of memory.
    Memory,
}

impl From<AllocError> for ReplaceFault {
    ghost use Rattle.std.specs.Prelude.{◌≡◌};
    ghost use Rattle.p10_macros.specs.declared.replaced.ReplaceFault.TheVariants.{Memory};

    ghost from_gives = { λ _ fault. fault ≡ Memory };

    fn from(_error: AllocError) -> ReplaceFault {
        ReplaceFault::Memory
    }
}

impl<T: Drop> From<AllocFailed<T>> for ReplaceFault {
    ghost use Rattle.std.specs.Prelude.{◌≡◌};
    ghost use Rattle.p10_macros.specs.declared.replaced.ReplaceFault.TheVariants.{Memory};

    ghost from_gives = { λ _ fault. fault ≡ Memory };

    fn from(_error: AllocFailed<T>) -> ReplaceFault {
        ReplaceFault::Memory
    }
}
