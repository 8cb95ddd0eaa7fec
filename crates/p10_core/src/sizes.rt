//! The size of a type of a program.

ghost use Rattle.std.specs.Prelude.{◌≡◌};
ghost use Rattle.p10_core.specs.Types.{plain_type};
ghost use Rattle.p10_core.specs.Views.{plain_program};
ghost use Rattle.p10_core.specs.Sizes.{size_of};
ghost use Rattle.p10_core.specs.WholePrograms.{IsWholeProgram, IsWholeType};

use crate::c_type::CType;
use crate::program::Program;

/// The size of a type of a whole program in bytes (C99 6.5.3.4); 0 of a type that has none. It takes no memory.
pub fn size(p: &Program<'_>, t: &CType) -> u64
    requires program { IsWholeProgram (plain_program p.now) }
    requires of_program { IsWholeType (plain_program p.now).structures (plain_type t.now) }
    ensures { result ≡ size_of (plain_program p.now).structures (plain_type t.now) }
{
    p.types.size(t)
}
