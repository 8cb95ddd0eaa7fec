//! What holds of the definitions of types: each law is the contract of a function without a body.

ghost use Rattle.p10_core.specs.Laws.{StructuresLieAsTheirMembers, CompatibleTypesLieAlike, ScalarsHaveBytes, ArraysAreShort};
ghost use Rattle.p10_core.specs.Completing.{NoneAreBuilt, OneMoreIsBuilt, CompletedAreBuilt};

/// A structure lies in memory as its members do, padded to its alignment: none contains itself, so no bound on its
/// depth counts (C99 6.7.2.1).
pub fn structures_lie_as_their_members()
    ensures { StructuresLieAsTheirMembers }
{}

/// Types that are compatible between roots have one size, one alignment and the same scalars (C99 6.2.7).
pub fn compatible_types_lie_alike()
    ensures { CompatibleTypesLieAlike }
{}

/// Structures that are declared and completed one after the other are whole at each moment (C99 6.7.2.1).
pub fn structures_are_built()
    ensures none { NoneAreBuilt }
    ensures one_more { OneMoreIsBuilt }
    ensures completed { CompletedAreBuilt }
{}

/// A type that has a size has a byte for each of its scalars, and no array has over 2^40 elements.
pub fn types_have_bytes()
    ensures bytes { ScalarsHaveBytes }
    ensures arrays { ArraysAreShort }
{}
