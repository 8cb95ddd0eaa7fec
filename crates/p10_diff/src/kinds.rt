//! Integer types.

ghost use Rattle.std.specs.Prelude.{◌≡◌};
ghost use Rattle.p10_int.specs.Types.{rank_of};

use p10_int::IntType;

/// The conversion rank of a type among the twelve (C99 6.3.1.1).
pub(crate) fn conversion_rank(t: IntType) -> u32
    ensures { result ≡ rank_of t }
{
    match t {
        IntType::Bool => 0,
        IntType::Char | IntType::SChar | IntType::UChar => 1,
        IntType::Short | IntType::UShort => 2,
        IntType::Int | IntType::UInt => 3,
        IntType::Long | IntType::ULong => 4,
        IntType::LLong | IntType::ULLong => 5,
    }
}
