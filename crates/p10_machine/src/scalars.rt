//! Scalars: integers and pointers.

ghost use Rattle.std.specs.Prelude.{◌≡◌, pos};
ghost use Rattle.p10_meaning.specs.declared.pointers.Scalar.TheVariants.{Int};
ghost use Rattle.p10_meaning.specs.Scalars.{number_of, pointer_of, is_true, truth_value};

use p10_meaning::{Ptr, Scalar};

/// The number that an integer is.
pub fn number_of(x: Scalar) -> i128
    ensures { result ≡ number_of x }
{
    match x {
        Scalar::Int(number) => number,
        Scalar::Pointer(_) => 0,
    }
}

/// The pointer that a scalar is.
pub fn pointer_of(x: Scalar) -> Ptr
    ensures { result ≡ pointer_of x }
{
    match x {
        Scalar::Int(_) => Ptr::Null,
        Scalar::Pointer(pointer) => pointer,
    }
}

/// Whether a scalar compares unequal to 0.
pub fn is_true(x: Scalar) -> bool
    ensures { result ≡ is_true x }
{
    match x {
        Scalar::Int(number) => number != 0,
        Scalar::Pointer(Ptr::Null) => false,
        Scalar::Pointer(_) => true,
    }
}

/// 1 or 0.
pub fn truth_value(truth: bool) -> Scalar
    ensures { result ≡ truth_value truth }
{
    Scalar::Int(i128::from(truth))
}

/// A byte as a scalar.
pub fn byte_value(byte: u8) -> Scalar
    ensures { result ≡ Int (pos byte) }
{
    Scalar::Int(i128::from(byte))
}
