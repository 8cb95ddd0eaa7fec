//! What declarators of arrays make of types (C99 6.7.5.2).

ghost use Rattle.std.specs.Prelude.{◌≡◌, IfOk, Ok};
ghost use Rattle.p10_core.specs.Types.{plain_type};
ghost use Rattle.p10_core.specs.Typed.{at_of};
ghost use Rattle.p10_core.specs.Views.{plain_types, plain_value};
ghost use Rattle.p10_core.specs.Constants.{fold};
ghost use Rattle.p10_core.specs.WholePrograms.{AreWholeStructures};
ghost use Rattle.p10_elabx.specs.First.{only_first, on, pair, lift};
ghost use Rattle.p10_elabx.specs.TypeNames.{an_open_array, element, array_length, counted_length, folded_length, constant_length, length_found, sized_array, array_of, array_judged, open_array_judged};
ghost use Rattle.p10_elabx.specs.Built.{ruled_shape, ruled_type, ruled_value, judged_shape, judged_value, plain_shape};

use crate::declarators::lacks_size;
use crate::judged::{Judged, shape_refused};
use crate::parts::both;
use crate::problem::Problem;
use crate::shape::{Length, Made, Shape};
use crate::sizes::known_size;
use p10_base::{At, SubsetCode};
use p10_core::{CType, Types, Value, fold, inconstant_part};
use std::alloc::{AllocError, Global};

/// The most elements that an array may have: each takes at least one byte.
const MOST_ELEMENTS: i128 = 1_099_511_627_776;

/// The element of an array.
fn element(types: &Types<'_>, name_at: At, shape: Shape) -> Result<CType, Option<Problem>>
    ensures { ruled_type result ≡ element (plain_types types.now) name_at (plain_shape shape) }
{
    let own = Problem {
        code: SubsetCode::IncompleteType,
        at: name_at,
    };
    match shape {
        Shape::Plain(ty) => {
            if types.is_complete(&ty) {
                Ok(ty)
            } else {
                Err(Some(own))
            }
        }
        Shape::OpenArray(_) | Shape::Function(_, _) => Err(Some(own)),
    }
}

/// The element of an array, if its type is found.
fn element_found(
    types: &Types<'_>,
    name_at: At,
    found: Result<Shape, Option<Problem>>,
) -> Result<CType, Option<Problem>>
    ensures { lift (ruled_type result) ≡ on (lift (ruled_shape found)) (element (plain_types types.now) name_at) }
{
    match found {
        Ok(shape) => element(types, name_at, shape),
        Err(r) => Err(r),
    }
}

/// The length of an array, from 1 on.
fn array_length(length: i128) -> Option<u64>
    ensures { result ≡ array_length length }
{
    if length < 1 {
        return None;
    }
    if length > MOST_ELEMENTS {
        return None;
    }
    Some(length as u64)
}

/// A number of elements as a length, at its tree.
fn counted_length(at: At, count: Option<u64>) -> Result<Length, Option<Problem>>
    ensures { result ≡ counted_length at count }
{
    match count {
        Some(count) => Ok(Length { at, count }),
        None => Err(Some(Problem {
            code: SubsetCode::BadLength,
            at,
        })),
    }
}

/// A length that is of constant form: a part that stops refuses it.
fn folded_length(length: &Value) -> Result<Length, Option<Problem>>
    ensures { result ≡ folded_length (at_of (plain_value length.now)) (fold (plain_value length.now)) }
{
    match fold(length) {
        Ok(number) => counted_length(length.at, array_length(number)),
        Err(part) => Err(Some(Problem {
            code: SubsetCode::ConstantStops,
            at: part,
        })),
    }
}

/// A length with the first part of it that isn't constant, if there is one.
fn constant_length(length: &Value, part: Option<At>) -> Result<Length, Option<Problem>>
    ensures { result ≡ constant_length (plain_value length.now) part }
{
    match part {
        Some(_) => Err(Some(Problem {
            code: SubsetCode::BadLength,
            at: length.at,
        })),
        None => folded_length(length),
    }
}

/// The length of an array, whatever its elements are: an integer constant expression of at least 1 (C99 6.7.5.2p1).
pub fn length_found(length: &Value) -> Result<Length, Option<Problem>>
    ensures { result ≡ length_found (plain_value length.now) }
{
    if length.ty.is_integer() {
        constant_length(length, inconstant_part(length))
    } else {
        Err(Some(Problem {
            code: SubsetCode::BadLength,
            at: length.at,
        }))
    }
}

/// An array with a length: it isn't larger than a type may be.
pub fn sized_array(
    alloc: Global,
    types: &Types<'_>,
    ty: CType,
    length: Length,
) -> Result<Result<CType, Option<Problem>>, AllocError>
    requires { AreWholeStructures (plain_types types.now) }
    ensures { IfOk result (λ r. ruled_type r ≡ sized_array (plain_types types.now) (plain_type ty) length) }
{
    let array = CType::array(alloc, ty, length.count)?;
    match known_size(types, &array) {
        Some(_) => Ok(Ok(array)),
        None => Ok(Err(Some(Problem {
            code: SubsetCode::BadLength,
            at: length.at,
        }))),
    }
}

/// The same, as what a declarator makes.
fn array_of(
    alloc: Global,
    types: &Types<'_>,
    ty: CType,
    length: Length,
) -> Result<Result<Shape, Option<Problem>>, AllocError>
    requires { AreWholeStructures (plain_types types.now) }
    ensures { IfOk result (λ r. ruled_shape r ≡ array_of (plain_types types.now) (plain_type ty) length) }
{
    match sized_array(alloc, types, ty, length)? {
        Ok(array) => Ok(Ok(Shape::Plain(array))),
        Err(problem) => Ok(Err(problem)),
    }
}

/// A length, if its value is found.
fn length_judged(length: Result<Value, Option<Problem>>) -> Result<Length, Option<Problem>>
    ensures { lift result ≡ on (lift (ruled_value length)) length_found }
{
    match length {
        Ok(v) => length_found(&v),
        Err(problem) => Err(problem),
    }
}

/// An array with a length, if its element and its length are found.
fn array_found(
    alloc: Global,
    types: &Types<'_>,
    a: Result<CType, Option<Problem>>,
    b: Result<Length, Option<Problem>>,
) -> Result<Result<Shape, Option<Problem>>, AllocError>
    requires { AreWholeStructures (plain_types types.now) }
    ensures { IfOk result (λ r. lift (ruled_shape r) ≡ on (pair only_first (lift (ruled_type a)) (lift b)) (λ (t, n). array_of (plain_types types.now) t n)) }
{
    match both(a, b) {
        Ok(parts) => {
            let (ty, length) = parts;
            array_of(alloc, types, ty, length)
        }
        Err(r) => Ok(Err(r)),
    }
}

/// What is found in an array with a length.
#[tactic(auto, unfolding(crate::specs::TypeNames::array_judged))]
pub fn array_judged(
    alloc: Global,
    types: &Types<'_>,
    name_at: At,
    made: Made,
    length: Judged<Value>,
    found: Result<Shape, Option<Problem>>,
) -> Result<Result<Shape, Option<Problem>>, AllocError>
    requires { AreWholeStructures (plain_types types.now) }
    ensures { IfOk result (λ r. judged_shape r ≡ array_judged only_first (plain_types types.now) name_at made (judged_value length) (judged_shape found)) }
{
    let element = element_found(types, name_at, found);
    let length = length_judged(length.found);
    let found = array_found(alloc, types, element, length)?;
    let own = Problem {
        code: SubsetCode::IncompleteType,
        at: name_at,
    };
    Ok(shape_refused(lacks_size(made), own, found))
}

/// An array whose length is lacking, if its element is found.
fn open_found(element: Result<CType, Option<Problem>>) -> Result<Shape, Option<Problem>>
    ensures { lift (ruled_shape result) ≡ on (lift (ruled_type element)) (λ t. Ok (an_open_array t)) }
{
    match element {
        Ok(ty) => Ok(Shape::OpenArray(ty)),
        Err(r) => Err(r),
    }
}

/// What is found in an array whose length is lacking.
#[tactic(auto, unfolding(crate::specs::TypeNames::open_array_judged))]
pub fn open_array_judged(
    types: &Types<'_>,
    name_at: At,
    made: Made,
    found: Result<Shape, Option<Problem>>,
) -> Result<Shape, Option<Problem>>
    ensures { judged_shape result ≡ open_array_judged only_first (plain_types types.now) name_at made (judged_shape found) }
{
    let found = open_found(element_found(types, name_at, found));
    let own = Problem {
        code: SubsetCode::IncompleteType,
        at: name_at,
    };
    shape_refused(lacks_size(made), own, found)
}
