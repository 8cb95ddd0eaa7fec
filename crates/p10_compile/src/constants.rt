//! Constants that stand in an operation.

ghost use Rattle.std.specs.Prelude.{◌≡◌, true, IfSome};
ghost use Rattle.p10_core.specs.Types.{plain_type};
ghost use Rattle.p10_core.specs.Views.{plain_form};
ghost use Rattle.p10_code.specs.Operations.{fixed, class_of};
ghost use Rattle.p10_code.specs.Machine.{converted_by};
ghost use Rattle.p10_code.specs.ValueCode.{is_small, small, fixed_of};
ghost use Rattle.p10_compile.specs.Views.{plain_operand, is_number_or_null};

use crate::operations::Operand;
use p10_core::{CType, TypeForm, Value, ValueForm};
use p10_meaning::{Ptr, Scalar};

/// Whether an operand has room for a scalar: a number of 32 bits, or null.
pub fn is_small(x: Scalar) -> bool
    ensures { result ≡ is_small x }
{
    match x {
        Scalar::Int(z) => -2_147_483_648 <= z && z <= 2_147_483_647,
        Scalar::Pointer(_) => true,
    }
}

/// A scalar, if it is small.
fn small(x: Scalar) -> Option<Scalar>
    requires null { is_number_or_null x ≡ true }
    ensures value { result ≡ small x }
    ensures small { IfSome result (λ y. is_small y ≡ true) }
    ensures null { IfSome result (λ y. is_number_or_null y ≡ true) }
{
    if is_small(x) { Some(x) } else { None }
}

/// The operand that a small scalar is.
pub fn operand_of(x: Scalar) -> Operand
    requires small { is_small x ≡ true }
    requires null { is_number_or_null x ≡ true }
    ensures { plain_operand result ≡ fixed x }
{
    match x {
        Scalar::Int(z) => Operand::Number(z as i32),
        Scalar::Pointer(_) => Operand::Null,
    }
}

/// A small scalar, converted to a type.
fn converted(t: &CType, x: Scalar) -> Scalar
    requires small { is_small x ≡ true }
    requires null { is_number_or_null x ≡ true }
    ensures value { result ≡ converted_by (class_of (plain_type t.now)) x }
    ensures null { is_number_or_null result ≡ true }
{
    match &t.form {
        TypeForm::Int(kind) => match x {
            Scalar::Int(z) => Scalar::Int(p10_int::convert(*kind, z)),
            Scalar::Pointer(_) => Scalar::Int(p10_int::convert(*kind, 0)),
        },
        TypeForm::Pointer(_) => match x {
            Scalar::Int(_) => Scalar::Pointer(Ptr::Null),
            Scalar::Pointer(pointer) => Scalar::Pointer(pointer),
        },
        _ => x,
    }
}

/// The scalar that a value always is, where an operand has room for it: that of a constant, and of one that is converted.
pub fn fixed_of(v: &Value) -> Option<Scalar>
    ensures value { result ≡ fixed_of (plain_type v.now.ty) (plain_form v.now.form) }
    ensures small { IfSome result (λ x. is_small x ≡ true) }
    ensures null { IfSome result (λ x. is_number_or_null x ≡ true) }
{
    match &v.form {
        ValueForm::Const(z) => small(Scalar::Int(*z)),
        ValueForm::Convert(part) => match fixed_of(part) {
            Some(x) => small(converted(&v.ty, x)),
            None => None,
        },
        _ => None,
    }
}
