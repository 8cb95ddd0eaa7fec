//! What holds of declarations of one name: each law is the contract of a function without a body.

ghost use Rattle.p10_linkage.specs.Laws.{CompatibleDeclarationsAgree, TypesAreCompatibleWithThemselves, UnitedTypesAreOne, UnitedTypesAreCompatible, ComparedTypesAreCompatible, CompatibleTypesAreFound, StructuresAreCompared, ListsAreCompared};

/// Declarations of one name in different roots whose types are compatible agree, whatever other declarations made of the structures.
pub fn compatible_declarations_agree()
    ensures { CompatibleDeclarationsAgree }
{}

/// A type is compatible with itself.
pub fn types_are_compatible_with_themselves()
    ensures { TypesAreCompatibleWithThemselves }
{}

/// Two types that become one are the same type then, apart from marks.
pub fn united_types_are_one()
    ensures { UnitedTypesAreOne }
{}

/// Two types become one only where they are compatible, and so do the structures in them.
pub fn united_types_are_compatible()
    ensures { UnitedTypesAreCompatible }
{}

/// Types that are found compatible are so, by pairs of structures that are.
pub fn compared_types_are_compatible()
    ensures { ComparedTypesAreCompatible }
{}

/// Types that are compatible by any pairs of structures that are, are found to be.
pub fn compatible_types_are_found()
    ensures { CompatibleTypesAreFound }
{}

/// Small structures, compared by hand: one that isn't complete is compatible with each of its tag.
pub fn structures_are_compared()
    ensures { StructuresAreCompared }
{}

/// Lists of parameters, compared by hand, some of which are refused.
pub fn lists_are_compared()
    ensures { ListsAreCompared }
{}
