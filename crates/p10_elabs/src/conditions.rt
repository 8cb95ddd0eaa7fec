//! Values that statements ask for: conditions, values of a `switch` and of a `return` (C99 6.8.4, 6.8.5, 6.8.6.4).

ghost use Rattle.std.specs.Prelude.{◌≡◌, IfOk, option_map};
ghost use Rattle.p10_core.specs.Types.{plain_type};
ghost use Rattle.p10_core.specs.Views.{plain_value};
ghost use Rattle.p10_elabx.specs.First.{only_first, lift, on};
ghost use Rattle.p10_elabx.specs.Built.{ruled_value};
ghost use Rattle.p10_elabd.specs.Standing.{noted};
ghost use Rattle.p10_elabd.specs.Views.{plain_standing, told};
ghost use Rattle.p10_elabs.specs.Expressions.{tested, switched};
ghost use Rattle.p10_elabs.specs.Statements.{returned};

use p10_base::{At, SubsetCode};
use p10_core::{CType, TypeForm, Value};
use p10_elabd::Standing;
use p10_elabx::{Problem, converted, fitted};
use p10_int::promote;
use std::alloc::{AllocError, Global};

/// A condition is a scalar.
fn tested(v: Value) -> Result<Value, Option<Problem>>
    ensures { ruled_value result ≡ tested (plain_value v) }
{
    if v.ty.is_scalar() {
        Ok(v)
    } else {
        let at = v.at;
        Err(Some(Problem {
            code: SubsetCode::OperandTypes,
            at,
        }))
    }
}

/// A condition that may be refused.
pub(crate) fn tested_found(found: Result<Value, Option<Problem>>) -> Result<Value, Option<Problem>>
    ensures { lift (ruled_value result) ≡ on (lift (ruled_value found)) tested }
{
    match found {
        Ok(v) => tested(v),
        Err(problem) => Err(problem),
    }
}

/// The value of a `return`: the function has a result, which it fits.
fn returned(
    alloc: Global,
    at: At,
    ty: &CType,
    v: Value,
) -> Result<Result<Value, Option<Problem>>, AllocError>
    ensures { IfOk result (λ r. ruled_value r ≡ returned at (plain_type ty.now) (plain_value v)) }
{
    if ty.is_void() {
        return Ok(Err(Some(Problem {
            code: SubsetCode::TypesDiffer,
            at,
        })));
    }
    fitted(alloc, at, v, ty)
}

/// The value of a `return` that may be refused.
pub(crate) fn returned_found(
    alloc: Global,
    at: At,
    ty: &CType,
    found: Result<Value, Option<Problem>>,
) -> Result<Result<Value, Option<Problem>>, AllocError>
    ensures { IfOk result (λ r. lift (ruled_value r) ≡ on (lift (ruled_value found)) (returned at (plain_type ty.now))) }
{
    match found {
        Ok(v) => {
            let given = returned(alloc, at, ty, v)?;
            Ok(given)
        }
        Err(problem) => Ok(Err(problem)),
    }
}

/// A value, of which the problem is noted where it is refused.
pub(crate) fn noted_value(
    found: Result<Value, Option<Problem>>,
    standing: &mut Standing<'_>,
) -> Option<Value>
    ensures { told (option_map plain_value result) standing.new ≡ noted only_first (lift (ruled_value found)) (plain_standing standing.old) }
{
    match found {
        Ok(v) => Some(v),
        Err(problem) => {
            standing.note(problem);
            None
        }
    }
}

/// The value of a `switch` is an integer, which is promoted (C99 6.8.4.2p1, p5).
fn switched(alloc: Global, v: Value) -> Result<Result<Value, Option<Problem>>, AllocError>
    ensures { IfOk result (λ r. ruled_value r ≡ switched (plain_value v)) }
{
    match &v.ty.form {
        TypeForm::Int(kind) => {
            let ty = CType::integer(promote(*kind));
            Ok(Ok(converted(alloc, v, ty)?))
        }
        TypeForm::Void | TypeForm::Pointer(_) | TypeForm::Array(_, _) | TypeForm::Struct(_) => Ok(
            Err(Some(Problem {
                code: SubsetCode::OperandTypes,
                at: v.at,
            })),
        ),
    }
}

/// The value of a `switch` that may be refused.
pub(crate) fn switched_found(
    alloc: Global,
    found: Result<Value, Option<Problem>>,
) -> Result<Result<Value, Option<Problem>>, AllocError>
    ensures { IfOk result (λ r. lift (ruled_value r) ≡ on (lift (ruled_value found)) switched) }
{
    match found {
        Ok(v) => {
            let given = switched(alloc, v)?;
            Ok(given)
        }
        Err(problem) => Ok(Err(problem)),
    }
}
