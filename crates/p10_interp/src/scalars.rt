//! Scalars: integers and pointers.

ghost use Rattle.std.specs.Prelude.{◌≡◌, IfOk, IfErr};
ghost use Rattle.p10_core.specs.Types.{plain_type};
ghost use Rattle.p10_meaning.specs.Scalars.{number_of, pointer_of, is_true, truth_value, integer_type, converted_to};

use crate::work::Halt;
use p10_core::{CType, TypeForm};
use p10_int::IntType;
use p10_meaning::{Ptr, Scalar};

/// The number that an integer is.
pub fn number_of(x: Scalar) -> i128
    ensures { result ≡ number_of x }
{
    match x {
        Scalar::Int(number) => number,
        Scalar::Pointer(_) => 0,
    }
}

/// The pointer that a scalar is.
pub fn pointer_of(x: Scalar) -> Ptr
    ensures { result ≡ pointer_of x }
{
    match x {
        Scalar::Int(_) => Ptr::Null,
        Scalar::Pointer(pointer) => pointer,
    }
}

/// Whether a scalar compares unequal to 0.
pub fn is_true(x: Scalar) -> bool
    ensures { result ≡ is_true x }
{
    match x {
        Scalar::Int(number) => number != 0,
        Scalar::Pointer(Ptr::Null) => false,
        Scalar::Pointer(_) => true,
    }
}

/// 1 or 0.
pub fn truth_value(truth: bool) -> Scalar
    ensures { result ≡ truth_value truth }
{
    Scalar::Int(i128::from(truth))
}

/// The integer type that a type is: `int` in the place of any other.
pub fn integer_type(t: &CType) -> IntType
    ensures { result ≡ integer_type (plain_type t.now) }
{
    match &t.form {
        TypeForm::Int(kind) => *kind,
        _ => IntType::Int,
    }
}

/// A scalar converted to a type (C99 6.3). A number that no type holds is answered as out of memory; whole programs have none.
pub fn convert_to(t: &CType, x: Scalar) -> Result<Scalar, Halt>
    ensures value { IfOk result (λ y. y ≡ converted_to (plain_type t.now) x) }
    ensures memory { IfErr result (λ halt. halt ≡ Halt.Memory) }
{
    match &t.form {
        TypeForm::Int(kind) => {
            let number = number_of(x);
            if -9_223_372_036_854_775_808 <= number && number <= 18_446_744_073_709_551_615 {
                Ok(Scalar::Int(p10_int::convert(*kind, number)))
            } else {
                Err(Halt::Memory)
            }
        }
        TypeForm::Pointer(_) => Ok(Scalar::Pointer(pointer_of(x))),
        _ => Ok(x),
    }
}
