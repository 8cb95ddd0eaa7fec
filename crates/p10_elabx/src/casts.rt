//! What is found in casts and in `sizeof` of types whose parts are judged (C99 6.5.3.4, 6.5.4).

ghost use Rattle.std.specs.Prelude.{◌≡◌, IfOk, if◌then◌else◌};
ghost use Rattle.p10_core.specs.Views.{plain_types, plain_value};
ghost use Rattle.p10_core.specs.WholePrograms.{AreWholeStructures};
ghost use Rattle.p10_elabx.specs.First.{only_first, on, pair, lift, nothing_said};
ghost use Rattle.p10_elabx.specs.Operands.{any_value, as_value};
ghost use Rattle.p10_elabx.specs.Judging.{shape_size, type_size_judged, cast_found, is_void_shape, cast_judged, comma_judged};
ghost use Rattle.p10_elabx.specs.Built.{plain_shape, plain_listed, ruled_operand, ruled_value, ruled_values, ruled_shape, judged_operand, judged_value, judged_shape};

use crate::forms::valued;
use crate::judged::{Judged, Listed, also_operand};
use crate::operand::Operand;
use crate::operators::{cast_value, size_value};
use crate::parts::{both, stopped, unused};
use crate::problem::Problem;
use crate::shape::Shape;
use crate::values::{any_value, as_value};
use p10_base::{At, SubsetCode};
use p10_core::{Types, Value};
use std::alloc::{AllocError, Global};

/// `sizeof` of a type.
fn shape_size(types: &Types<'_>, at: At, shape: Shape) -> Result<Operand, Option<Problem>>
    requires { AreWholeStructures (plain_types types.now) }
    ensures { ruled_operand result ≡ shape_size (plain_types types.now) at (plain_shape shape) }
{
    match shape {
        Shape::Plain(ty) => size_value(types, at, &ty),
        Shape::OpenArray(_) | Shape::Function(_, _) => Err(Some(Problem {
            code: SubsetCode::NoSize,
            at,
        })),
    }
}

/// What is found in `sizeof` of a type.
#[tactic(auto, unfolding(crate::specs::Judging::type_size_judged))]
pub fn type_size_judged(
    types: &Types<'_>,
    at: At,
    found: Result<Shape, Option<Problem>>,
) -> Judged<Operand>
    requires { AreWholeStructures (plain_types types.now) }
    ensures { judged_operand result ≡ type_size_judged (plain_types types.now) at (judged_shape found) }
{
    let found = match found {
        Ok(shape) => shape_size(types, at, shape),
        Err(r) => Err(r),
    };
    Judged {
        found,
        acts: false,
        reads: false,
    }
}

/// A cast to a type, or to what none is.
fn cast_found(
    alloc: Global,
    at: At,
    shape: Shape,
    v: Value,
) -> Result<Result<Operand, Option<Problem>>, AllocError>
    ensures { IfOk result (λ r. ruled_operand r ≡ cast_found at (plain_shape shape) (plain_value v)) }
{
    match shape {
        Shape::Plain(ty) => Ok(valued(cast_value(alloc, at, &ty, v)?)),
        Shape::OpenArray(_) | Shape::Function(_, _) => {
            let own = Problem {
                code: SubsetCode::BadCast,
                at,
            };
            Ok(stopped(v, Some(own)))
        }
    }
}

/// A cast, if its type and its operand are found.
fn both_cast(
    alloc: Global,
    at: At,
    a: Result<Shape, Option<Problem>>,
    b: Result<Value, Option<Problem>>,
) -> Result<Result<Operand, Option<Problem>>, AllocError>
    ensures { IfOk result (λ r. lift (ruled_operand r) ≡ on (pair only_first (lift (ruled_shape a)) (lift (ruled_value b))) (λ (t, v). cast_found at t v)) }
{
    match both(a, b) {
        Ok(parts) => {
            let (shape, v) = parts;
            let found = cast_found(alloc, at, shape, v)?;
            Ok(found)
        }
        Err(r) => Ok(Err(r)),
    }
}

/// Whether a cast's type is `void`.
fn is_void_shape(found: &Result<Shape, Option<Problem>>) -> bool
    ensures { result ≡ is_void_shape (lift (ruled_shape found.now)) }
{
    match found {
        Ok(Shape::Plain(ty)) => ty.is_void(),
        Ok(Shape::OpenArray(_) | Shape::Function(_, _)) | Err(_) => false,
    }
}

/// The operand of a cast: under `void` it may be void.
fn cast_operand(
    alloc: Global,
    types: &Types<'_>,
    void: bool,
    j: Judged<Operand>,
) -> Result<Judged<Value>, AllocError>
    ensures { IfOk result (λ r. judged_value r ≡ (if void then any_value (plain_types types.now) (judged_operand j) else as_value (plain_types types.now) (judged_operand j))) }
{
    if void {
        any_value(alloc, types, j)
    } else {
        as_value(alloc, types, j)
    }
}

/// What is found in a cast.
#[tactic(auto, unfolding(crate::specs::Judging::cast_judged))]
pub fn cast_judged(
    alloc: Global,
    types: &Types<'_>,
    at: At,
    found: Result<Shape, Option<Problem>>,
    j: Judged<Operand>,
) -> Result<Judged<Operand>, AllocError>
    ensures { IfOk result (λ r. judged_operand r ≡ cast_judged only_first (plain_types types.now) at (judged_shape found) (judged_operand j)) }
{
    let void = is_void_shape(&found);
    let operand = cast_operand(alloc, types, void, j)?;
    let acts = operand.acts;
    let reads = operand.reads;
    let found = both_cast(alloc, at, found, operand.found)?;
    Ok(Judged { found, acts, reads })
}

/// The rows that hold in operands of the comma operator, which gives none.
fn no_operand(found: Result<Vec<Value>, Option<Problem>>) -> Result<Operand, Option<Problem>>
    ensures { lift (ruled_operand result) ≡ on (lift (ruled_values found)) (λ vs. nothing_said) }
{
    unused(found)
}

/// What is found in operands of the comma operator.
#[tactic(auto, unfolding(crate::specs::Judging::comma_judged))]
pub fn comma_judged(at: At, list: Listed) -> Judged<Operand>
    ensures { judged_operand result ≡ comma_judged only_first at (plain_listed list) }
{
    let Listed {
        found,
        acts,
        reads,
        unordered: _,
    } = list;
    let seen = Judged {
        found: no_operand(found),
        acts,
        reads,
    };
    also_operand(true, SubsetCode::CommaOperator, at, seen)
}
