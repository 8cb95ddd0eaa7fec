//! Members of structures by their names, and the bytes of integer types.

ghost use Rattle.std.specs.Prelude.{◌≡◌, nat_lt, length, map};
ghost use Rattle.p10_core.specs.Types.{plain_member, member_named};
ghost use Rattle.p10_core.specs.Sizes.{integer_bytes};

use crate::structures::Member;
use p10_int::IntType;

/// The place of the member with a name.
pub fn place_of_member(members: &[Member<'_>], name: &[u8]) -> Option<usize>
    ensures { result ≡ member_named name.now (map plain_member members.now) }
{
    for (place, member) in members.iter().enumerate() {
        if member.name == name {
            return Some(place);
        }
    }
    None
}

/// The bytes of an integer type.
pub fn integer_bytes(kind: IntType) -> u64
    ensures { result ≡ integer_bytes kind }
{
    match kind {
        IntType::Bool | IntType::Char | IntType::SChar | IntType::UChar => 1,
        IntType::Short | IntType::UShort => 2,
        IntType::Int | IntType::UInt => 4,
        IntType::Long | IntType::ULong | IntType::LLong | IntType::ULLong => 8,
    }
}

/// Whether there is a member.
pub fn has_members(members: &[Member<'_>]) -> bool
    ensures { result ≡ nat_lt 0 (length (map plain_member members.now)) }
{
    0 < members.len()
}
