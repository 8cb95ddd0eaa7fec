//! Types that are whole, and types that are one.

ghost use Rattle.std.specs.Prelude.{◌≡◌};
ghost use Rattle.p10_core.specs.Types.{plain_type, unqualified, qualified, bare, representative_of};
ghost use Rattle.p10_core.specs.Views.{plain_types};
ghost use Rattle.p10_core.specs.WholePrograms.{IsWholeType, IsObjectType};
ghost use Rattle.p10_whole.specs.private.Agreeing.{is_marked_same, is_bare_same};
ghost use Rattle.p10_whole.specs.private.Shows.{Shows};

use p10_core::{CType, TypeForm, Types};

/// Whether a type is one of C, over the structures that are there.
#[tactic(auto, using(crate::proofs::WholeTypes::whole_type_shown))]
pub(crate) fn is_whole_type(types: &Types<'_>, t: &CType) -> bool
    ensures { Shows result (IsWholeType (plain_types types.now) (plain_type t.now)) }
{
    types.is_whole(t)
}

/// Whether a type is one of objects.
#[tactic(auto, using(crate::proofs::WholeTypes::object_type_shown))]
pub(crate) fn is_object_type(types: &Types<'_>, t: &CType) -> bool
    ensures { Shows result (IsObjectType (plain_types types.now) (plain_type t.now)) }
{
    types.is_object(t)
}

/// Whether two types are the same, their marks included.
#[tactic(auto, using(crate::proofs::SameTypes::same_shown))]
pub(crate) fn are_same(t: &CType, other: &CType) -> bool
    ensures { Shows result (plain_type t.now ≡ plain_type other.now) }
{
    t.is_same(other)
}

/// Whether a type is another one without its own mark.
pub(crate) fn is_unqualified_of(t: &CType, other: &CType) -> bool
    ensures { Shows result (plain_type t.now ≡ unqualified (plain_type other.now)) }
{
    t.has_same_form(other) & (t.is_const == (other.is_const & other.is_array()))
}

/// Whether a type has no mark of its own.
pub(crate) fn is_unmarked(t: &CType) -> bool
    ensures { Shows result (plain_type t.now ≡ unqualified (plain_type t.now)) }
{
    !t.is_const | t.is_array()
}

/// Whether a type is another one with one mark more.
#[tactic(auto, using(crate::proofs::SameTypes::qualified_shown))]
pub(crate) fn is_qualified_of(mark: bool, t: &CType, other: &CType) -> bool
    ensures { Shows result (plain_type t.now ≡ qualified mark (plain_type other.now)) }
{
    is_marked_same(mark, t, other)
}

/// Whether a type is another one with one mark more, as a test.
#[tactic(auto, using(p10_core::proofs::TypeViews::mark_of_plain))]
fn is_marked_same(mark: bool, t: &CType, other: &CType) -> bool
    ensures { result ≡ is_marked_same mark (plain_type t.now) (plain_type other.now) }
{
    match (&t.form, &other.form) {
        (TypeForm::Array(element, length), TypeForm::Array(others, count)) => {
            (t.is_const == other.is_const)
                & ((length == count) & is_marked_same(mark, element, others))
        }
        _ => !t.is_array() & (t.has_same_form(other) & (t.is_const == (mark | other.is_const))),
    }
}

/// Whether two types are compatible (C99 6.2.7), marks aside.
#[tactic(auto, using(crate::proofs::SameTypes::compatible_shown))]
pub(crate) fn are_compatible(types: &Types<'_>, t: &CType, other: &CType) -> bool
    ensures { Shows result (bare (plain_types types.now) (plain_type t.now) ≡ bare (plain_types types.now) (plain_type other.now)) }
{
    is_bare_same(types, t, other)
}

/// Whether two types are one where marks are left aside, as a test.
fn is_bare_same(types: &Types<'_>, t: &CType, other: &CType) -> bool
    ensures { result ≡ is_bare_same (plain_types types.now) (plain_type t.now) (plain_type other.now) }
{
    match (&t.form, &other.form) {
        (TypeForm::Void, TypeForm::Void) => true,
        (TypeForm::Int(kind), TypeForm::Int(others)) => kind == others,
        (TypeForm::Pointer(target), TypeForm::Pointer(others)) => {
            is_bare_same(types, target, others)
        }
        (TypeForm::Array(element, length), TypeForm::Array(others, count)) => {
            (length == count) & is_bare_same(types, element, others)
        }
        (TypeForm::Struct(number), TypeForm::Struct(others)) => {
            representative(types, *number) == representative(types, *others)
        }
        _ => false,
    }
}

/// The number of the structure that stands for the one with a number.
fn representative(types: &Types<'_>, number: u32) -> u32
    ensures { result ≡ representative_of (plain_types types.now) number }
{
    match types.structure(number) {
        Some(structure) => structure.representative,
        None => number,
    }
}
