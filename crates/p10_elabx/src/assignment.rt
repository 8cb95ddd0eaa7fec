//! Assignments and steps (C99 6.5.2.4, 6.5.16).

ghost use Rattle.std.specs.Prelude.{◌≡◌, IfOk, option_map, false};
ghost use Rattle.p10_core.specs.Types.{plain_type, unqualified};
ghost use Rattle.p10_core.specs.Views.{plain_types, plain_value, plain_place, plain_statement_form};
ghost use Rattle.p10_elabx.specs.Operators.{copied_from, assigned, updated_by, updated};
ghost use Rattle.p10_elabx.specs.Built.{plain_row, ruled_form};

use crate::operators::{fitted, null_beside};
use crate::parts::{stopped, stopped_after_two};
use crate::problem::Problem;
use crate::rows::{Row, binary_row, fits};
use crate::values::converted;
use p10_base::{At, SubsetCode};
use p10_core::{CType, Place, StmtForm, Types, UpdateKind, Value, ValueForm};
use p10_int::BinOp;
use std::alloc::{AllocError, Global};

/// `P = e`.
pub fn assigned(
    alloc: Global,
    at: At,
    p: Place,
    v: Value,
) -> Result<Result<StmtForm, Option<Problem>>, AllocError>
    ensures { IfOk result (λ r. ruled_form r ≡ assigned at (plain_place p) (plain_value v)) }
{
    if p.ty.is_scalar() {
        match fitted(alloc, at, v, &p.ty) {
            Ok(Ok(v)) => Ok(Ok(StmtForm::Set(p, v))),
            Ok(Err(problem)) => Ok(stopped(p, problem)),
            Err(trouble) => stopped(p, trouble),
        }
    } else {
        copied_from(alloc, at, p, v)
    }
}

/// The copy of a structure.
fn copied_from(
    alloc: Global,
    at: At,
    p: Place,
    v: Value,
) -> Result<Result<StmtForm, Option<Problem>>, AllocError>
    ensures { IfOk result (λ r. ruled_form r ≡ copied_from at (plain_place p) (plain_value v)) }
{
    let target = match p.ty.copy(alloc) {
        Ok(target) => target.unqualified(),
        Err(trouble) => return stopped_after_two(p, v, trouble),
    };
    let Value { at: _, ty, form } = v;
    let same = target.is_same(&ty);
    let own = Problem {
        code: SubsetCode::TypesDiffer,
        at,
    };
    match form {
        ValueForm::Read(q) => {
            if same {
                Ok(Ok(StmtForm::Copy(p, Box::into_inner(q))))
            } else {
                Ok(stopped_after_two(p, q, Some(own)))
            }
        }
        other => Ok(stopped_after_two(p, other, Some(own))),
    }
}

/// `P op= e`, `P++` and `P--`.
#[tactic(auto, using(crate::proofs::Nulls::update_null))]
pub fn updated(
    alloc: Global,
    types: &Types<'_>,
    at: At,
    kind: UpdateKind,
    op: BinOp,
    p: Place,
    v: Value,
) -> Result<Result<StmtForm, Option<Problem>>, AllocError>
    ensures { IfOk result (λ r. ruled_form r ≡ updated (plain_types types.now) at kind op (plain_place p) (plain_value v)) }
{
    let target = match p.ty.copy(alloc) {
        Ok(target) => target.unqualified(),
        Err(trouble) => return stopped_after_two(p, v, trouble),
    };
    let nulls = (false, null_beside(&v, &target));
    match binary_row(alloc, types, op, nulls, &target, &v.ty) {
        Ok(row) => updated_by(alloc, at, (kind, op), p, v, row),
        Err(trouble) => stopped_after_two(p, v, trouble),
    }
}

/// An update by the row of its operator.
fn updated_by(
    alloc: Global,
    at: At,
    written: (UpdateKind, BinOp),
    p: Place,
    v: Value,
    row: Option<Row>,
) -> Result<Result<StmtForm, Option<Problem>>, AllocError>
    ensures { IfOk result (λ r. ruled_form r ≡ updated_by at written.0 written.1 (plain_place p) (plain_value v) (option_map plain_row row)) }
{
    match row {
        None => {
            let own = Problem {
                code: SubsetCode::OperandTypes,
                at,
            };
            Ok(stopped_after_two(p, v, Some(own)))
        }
        Some(row) => {
            if fits(false, &row.result, &p.ty) {
                match converted(alloc, v, row.right) {
                    Ok(v) => Ok(Ok(StmtForm::Update(written.0, written.1, row.left, p, v))),
                    Err(trouble) => stopped_after_two(p, row.left, trouble),
                }
            } else {
                let own = Problem {
                    code: SubsetCode::TypesDiffer,
                    at,
                };
                Ok(stopped_after_two(p, v, Some(own)))
            }
        }
    }
}
