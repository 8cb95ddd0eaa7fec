//! Operands as values (C99 6.3.2.1).

ghost use Rattle.std.specs.Prelude.{◌≡◌, IfOk};
ghost use Rattle.p10_core.specs.Types.{plain_type};
ghost use Rattle.p10_core.specs.Views.{plain_types, plain_value, plain_place, plain_form};
ghost use Rattle.p10_elabx.specs.First.{lift};
ghost use Rattle.p10_elabx.specs.Operands.{converted, not_void, operand_value, place_value, read_value, sensed, read_form, reads_object, reads_sensor, any_value, as_value};
ghost use Rattle.p10_elabx.specs.Built.{plain_operand, ruled_value, ruled_operand, judged_operand, judged_value};

use crate::judged::Judged;
use crate::operand::{Operand, PlaceKind};
use crate::parts::stopped;
use crate::problem::Problem;
use crate::rows::pointer_to;
use p10_base::SubsetCode;
use p10_core::{CType, Place, PlaceForm, TypeForm, Types, Value, ValueForm};
use std::alloc::{AllocError, Global};

/// An operand as a value, which may be void.
pub fn operand_value(
    alloc: Global,
    types: &Types<'_>,
    operand: Operand,
) -> Result<Result<Value, Option<Problem>>, AllocError>
    ensures { IfOk result (λ r. ruled_value r ≡ operand_value (plain_types types.now) (plain_operand operand)) }
{
    match operand {
        Operand::Value(v) => Ok(Ok(v)),
        Operand::Place(kind, p) => {
            let found = place_value(alloc, types, kind, p)?;
            Ok(found)
        }
        Operand::Function(at) => Ok(Err(Some(Problem {
            code: SubsetCode::BadPointer,
            at,
        }))),
    }
}

/// The value of a place.
fn place_value(
    alloc: Global,
    types: &Types<'_>,
    kind: PlaceKind,
    p: Place,
) -> Result<Result<Value, Option<Problem>>, AllocError>
    ensures { IfOk result (λ r. ruled_value r ≡ place_value (plain_types types.now) kind (plain_place p)) }
{
    match &p.ty.form {
        TypeForm::Array(element, _) => {
            let at = p.at;
            match pointer_to(alloc, element) {
                Ok(ty) => Ok(Ok(Value::decay(alloc, at, ty, p)?)),
                Err(trouble) => stopped(p, trouble),
            }
        }
        _ => {
            let found = read_value(alloc, types, kind, p)?;
            Ok(found)
        }
    }
}

/// The value of a place that has a size.
fn read_value(
    alloc: Global,
    types: &Types<'_>,
    kind: PlaceKind,
    p: Place,
) -> Result<Result<Value, Option<Problem>>, AllocError>
    ensures { IfOk result (λ r. ruled_value r ≡ read_value (plain_types types.now) kind (plain_place p)) }
{
    if types.is_complete(&p.ty) {
        let ty = match p.ty.copy(alloc) {
            Ok(ty) => ty.unqualified(),
            Err(trouble) => return stopped(p, trouble),
        };
        let at = p.at;
        Ok(Ok(Value {
            at,
            ty,
            form: read_form(alloc, kind, p)?,
        }))
    } else {
        let own = Problem {
            code: SubsetCode::OperandTypes,
            at: p.at,
        };
        Ok(stopped(p, Some(own)))
    }
}

/// How the value of a place is read.
fn read_form(alloc: Global, kind: PlaceKind, p: Place) -> Result<ValueForm, AllocError>
    ensures { IfOk result (λ f. plain_form f ≡ read_form kind (plain_place p)) }
{
    match kind {
        PlaceKind::Sensor => sensed(alloc, p),
        PlaceKind::Frame | PlaceKind::Object => Ok(ValueForm::Read(Box::new(alloc, p)?)),
    }
}

/// The value of a sensor.
fn sensed(alloc: Global, p: Place) -> Result<ValueForm, AllocError>
    ensures { IfOk result (λ f. plain_form f ≡ sensed (plain_place p)) }
{
    match &p.form {
        PlaceForm::Global(number) => Ok(ValueForm::Sense(*number)),
        _ => Ok(ValueForm::Read(Box::new(alloc, p)?)),
    }
}

/// A void expression has no value.
pub fn not_void(v: Value) -> Result<Value, Option<Problem>>
    ensures { ruled_value result ≡ not_void (plain_value v) }
{
    if v.ty.is_void() {
        let own = Problem {
            code: SubsetCode::VoidValue,
            at: v.at,
        };
        stopped(v, Some(own))
    } else {
        Ok(v)
    }
}

/// The value with the conversion that isn't written, where it changes the type.
pub fn converted(alloc: Global, v: Value, ty: CType) -> Result<Value, AllocError>
    ensures { IfOk result (λ r. plain_value r ≡ converted (plain_value v) (plain_type ty)) }
{
    if v.ty.is_same(&ty) {
        Ok(v)
    } else {
        let at = v.at;
        Value::convert(alloc, at, ty, v)
    }
}

/// Whether the value of an operand is read from an object or a sensor.
fn reads_object(found: &Result<Operand, Option<Problem>>) -> bool
    ensures { result ≡ reads_object (lift (ruled_operand found.now)) }
{
    match found {
        Ok(Operand::Place(PlaceKind::Frame, _)) => false,
        Ok(Operand::Place(PlaceKind::Object | PlaceKind::Sensor, p)) => !p.ty.is_array(),
        Ok(Operand::Value(_) | Operand::Function(_)) | Err(_) => false,
    }
}

/// Whether the value of an operand is read from a sensor.
fn reads_sensor(found: &Result<Operand, Option<Problem>>) -> bool
    ensures { result ≡ reads_sensor (lift (ruled_operand found.now)) }
{
    match found {
        Ok(Operand::Place(PlaceKind::Sensor, _)) => true,
        Ok(Operand::Place(PlaceKind::Frame | PlaceKind::Object, _)) => false,
        Ok(Operand::Value(_) | Operand::Function(_)) | Err(_) => false,
    }
}

/// What is found in an operand, as a value that may be void.
#[tactic(auto, unfolding(crate::specs::Operands::any_value))]
pub fn any_value(
    alloc: Global,
    types: &Types<'_>,
    j: Judged<Operand>,
) -> Result<Judged<Value>, AllocError>
    ensures { IfOk result (λ r. judged_value r ≡ any_value (plain_types types.now) (judged_operand j)) }
{
    let Judged { found, acts, reads } = j;
    let acts = acts || reads_sensor(&found);
    let reads = reads || reads_object(&found);
    let found = match found {
        Ok(operand) => operand_value(alloc, types, operand)?,
        Err(r) => Err(r),
    };
    Ok(Judged { found, acts, reads })
}

/// What is found in an operand where a value is needed.
#[tactic(auto, unfolding(crate::specs::Operands::as_value))]
pub fn as_value(
    alloc: Global,
    types: &Types<'_>,
    j: Judged<Operand>,
) -> Result<Judged<Value>, AllocError>
    ensures { IfOk result (λ r. judged_value r ≡ as_value (plain_types types.now) (judged_operand j)) }
{
    let Judged { found, acts, reads } = any_value(alloc, types, j)?;
    let found = match found {
        Ok(v) => not_void(v),
        Err(r) => Err(r),
    };
    Ok(Judged { found, acts, reads })
}
