//! What types are to operations.

ghost use Rattle.std.specs.Prelude.{◌≡◌};
ghost use Rattle.p10_core.specs.Types.{plain_type};
ghost use Rattle.p10_meaning.specs.Scalars.{integer_type};
ghost use Rattle.p10_meaning.specs.Values.{element_type, element_count};
ghost use Rattle.p10_code.specs.Operations.{class_of};
ghost use Rattle.p10_compile.specs.Views.{plain_class};

use crate::operations::Class;
use p10_core::{CType, TypeForm};
use p10_int::IntType;

/// The class of a type.
pub fn class_of(t: &CType) -> Class
    ensures { plain_class result ≡ class_of (plain_type t.now) }
{
    match &t.form {
        TypeForm::Int(kind) => Class::Number(*kind),
        TypeForm::Pointer(_) => Class::Address,
        _ => Class::Other,
    }
}

/// The integer type that a type is: `int` in the place of any other.
pub fn integer_type(t: &CType) -> IntType
    ensures { result ≡ integer_type (plain_type t.now) }
{
    match &t.form {
        TypeForm::Int(kind) => *kind,
        _ => IntType::Int,
    }
}

/// The type of an array's elements; that of what is no array is itself.
pub fn element_type(t: &CType) -> &CType
    ensures { plain_type result.now ≡ element_type (plain_type t.now) }
{
    match &t.form {
        TypeForm::Array(element, _) => element,
        _ => t,
    }
}

/// How many elements an array has.
pub fn element_count(t: &CType) -> u64
    ensures { result ≡ element_count (plain_type t.now) }
{
    match &t.form {
        TypeForm::Array(_, count) => *count,
        _ => 1,
    }
}
