//! Names where they are operands (C99 6.5.1).

ghost use Rattle.std.specs.Prelude.{◌≡◌, IfOk, option_map, option_copied};
ghost use Rattle.p10_core.specs.Types.{plain_type};
ghost use Rattle.p10_elabx.specs.Scopes.{library_named};
ghost use Rattle.p10_elabx.specs.Views.{meaning_of};
ghost use Rattle.p10_elabx.specs.Judging.{variable_kind, object_kind, undeclared_name, name_found, called_name};
ghost use Rattle.p10_syn.specs.Built.{identifier_of, expression_of};
ghost use Rattle.p10_elabx.specs.Built.{ruled_operand};

use crate::named::Named;
use crate::operand::{Operand, PlaceKind};
use crate::problem::Problem;
use p10_base::{At, SubsetCode};
use p10_core::{CType, Library, Place, Value};
use p10_int::IntType;
use p10_syn::{Expr, Form, Identifier};
use std::alloc::{AllocError, Global};

/// The library function with a name.
pub fn library_named(name: &[u8]) -> Option<Library>
    ensures { result ≡ library_named name.now }
{
    if name == b"assert".as_slice() {
        Some(Library::Assert)
    } else if name == b"c_assert".as_slice() {
        Some(Library::CAssert)
    } else if name == b"getchar".as_slice() {
        Some(Library::Getchar)
    } else if name == b"putchar".as_slice() {
        Some(Library::Putchar)
    } else if name == b"malloc".as_slice() {
        Some(Library::Malloc)
    } else if name == b"calloc".as_slice() {
        Some(Library::Calloc)
    } else if name == b"free".as_slice() {
        Some(Library::Free)
    } else {
        None
    }
}

/// A name where it is an operand: the place of the tree with its parentheses, and that of the name alone.
pub fn name_found(
    alloc: Global,
    at: At,
    name_at: At,
    name: &[u8],
    what: Option<&Named>,
) -> Result<Result<Operand, Option<Problem>>, AllocError>
    ensures { IfOk result (λ r. ruled_operand r ≡ name_found at name_at name.now (option_map meaning_of (option_copied what.entry))) }
{
    match what {
        None => Ok(undeclared_name(name_at, library_named(name))),
        Some(Named::Var { number, ty, frame }) => {
            let ty = ty.copy(alloc)?;
            Ok(Ok(Operand::Place(variable_kind(*frame), Place::variable(at, ty, *number))))
        }
        Some(Named::Global { number, ty, sensor }) => {
            let ty = ty.copy(alloc)?;
            Ok(Ok(Operand::Place(object_kind(*sensor), Place::global(at, ty, *number))))
        }
        Some(
            Named::Function {
                number: _,
                params: _,
                result: _,
            },
        ) => Ok(Ok(Operand::Function(name_at))),
        Some(Named::Constant(number)) => Ok(Ok(Operand::Value(Value::constant(
            at,
            CType::integer(IntType::Int),
            *number,
        )))),
        Some(Named::Unknown) => Ok(Err(None)),
        Some(Named::Typedef(_) | Named::Tag(_) | Named::UnknownTag) => Ok(Err(Some(Problem {
            code: SubsetCode::UnknownName,
            at: name_at,
        }))),
    }
}

/// A name that nothing declares.
fn undeclared_name(name_at: At, found: Option<Library>) -> Result<Operand, Option<Problem>>
    ensures { ruled_operand result ≡ undeclared_name name_at found }
{
    match found {
        None => Err(Some(Problem {
            code: SubsetCode::UnknownName,
            at: name_at,
        })),
        Some(_) => Ok(Operand::Function(name_at)),
    }
}

/// The kind of a variable.
fn variable_kind(frame: bool) -> PlaceKind
    ensures { result ≡ variable_kind frame }
{
    if frame {
        PlaceKind::Frame
    } else {
        PlaceKind::Object
    }
}

/// The kind of an object of static lifetime.
fn object_kind(sensor: bool) -> PlaceKind
    ensures { result ≡ object_kind sensor }
{
    if sensor {
        PlaceKind::Sensor
    } else {
        PlaceKind::Object
    }
}

/// The name that a tree is, whatever parentheses stand round it.
pub fn called_name<'s>(e: &Expr<'s>) -> Option<Identifier<'s>>
    ensures { option_map identifier_of result ≡ called_name (expression_of e.now) }
{
    match &e.form {
        Form::Name(name) => Some(*name),
        _ => None,
    }
}
