//! What types are like: the kinds of integer types and the targets of pointers, which have no mark.

ghost use Rattle.std.specs.Prelude.{◌≡◌, false, option_map, option_copied};
ghost use Rattle.p10_int.specs.declared.types.IntType.{IntType};
ghost use Rattle.p10_core.specs.Types.{PlainType, plain_type, integer, pointer, void};
ghost use Rattle.p10_whole.specs.private.Agreeing.{integer_kind, target_type, is_kind, is_target};
ghost use Rattle.p10_whole.specs.private.Shows.{Shows};

use p10_core::{CType, TypeForm};
use p10_int::IntType;

/// The kind of an integer type without a mark.
pub(crate) fn integer_kind(t: &CType) -> Option<IntType>
    ensures { result ≡ integer_kind (plain_type t.now) }
{
    match &t.form {
        TypeForm::Int(kind) => { if t.is_const { None } else { Some(*kind) } }
        _ => None,
    }
}

/// What a pointer type without a mark points to.
pub(crate) fn target_type(t: &CType) -> Option<&CType>
    ensures { option_map plain_type (option_copied result) ≡ target_type (plain_type t.now) }
{
    match &t.form {
        TypeForm::Pointer(target) => { if t.is_const { None } else { Some(target) } }
        _ => None,
    }
}

/// Whether a type is an integer type without a mark.
#[tactic(auto, using(crate::proofs::TypeShapes::integer_shown))]
pub(crate) fn is_integer(t: &CType) -> bool
    ensures { Shows result ((kind : IntType) × (plain_type t.now ≡ integer false kind)) }
{
    integer_kind(t).is_some()
}

/// Whether a type is the integer type `kind`, without a mark.
#[tactic(auto, using(crate::proofs::TypeShapes::kind_shown))]
pub(crate) fn is_integer_of(kind: IntType, t: &CType) -> bool
    ensures { Shows result (plain_type t.now ≡ integer false kind) }
{
    has_kind(kind, t)
}

/// Whether a type is the integer type `kind`, as a test.
pub(crate) fn has_kind(kind: IntType, t: &CType) -> bool
    ensures { result ≡ is_kind kind (integer_kind (plain_type t.now)) }
{
    match integer_kind(t) {
        Some(found) => found == kind,
        None => false,
    }
}

/// Whether a type is a pointer without a mark.
#[tactic(auto, using(crate::proofs::TypeShapes::pointer_shown))]
pub(crate) fn is_pointer(t: &CType) -> bool
    ensures { Shows result ((target : PlainType) × (plain_type t.now ≡ pointer false target)) }
{
    target_type(t).is_some()
}

/// Whether a type is a pointer to another one, without a mark.
#[tactic(auto, using(crate::proofs::TypeShapes::target_shown))]
pub(crate) fn is_pointer_to(t: &CType, target: &CType) -> bool
    ensures { Shows result (plain_type t.now ≡ pointer false (plain_type target.now)) }
{
    has_target(t, target)
}

/// Whether a type is a pointer to another one, as a test.
fn has_target(t: &CType, target: &CType) -> bool
    ensures { result ≡ is_target (target_type (plain_type t.now)) (plain_type target.now) }
{
    match target_type(t) {
        Some(found) => found.is_same(target),
        None => false,
    }
}

/// Whether a type is `void`, without a mark.
pub(crate) fn is_bare_void(t: &CType) -> bool
    ensures { Shows result (plain_type t.now ≡ void false) }
{
    t.is_void() & !t.is_const
}
