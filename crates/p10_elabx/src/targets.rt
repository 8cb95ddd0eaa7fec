//! What is found in assignments and steps whose operands are judged (C99 6.5.2.4, 6.5.16).

ghost use Rattle.std.specs.Prelude.{◌≡◌, IfOk};
ghost use Rattle.p10_core.specs.Views.{plain_types, plain_value};
ghost use Rattle.p10_core.specs.WholePrograms.{AreWholeStructures};
ghost use Rattle.p10_elabx.specs.First.{only_first, on, pair, lift, nothing_said};
ghost use Rattle.p10_elabx.specs.Operators.{assigned, updated};
ghost use Rattle.p10_elabx.specs.Judging.{target_judged, assignment_judged, with_read, counts_as_read, counts_as_act, update_judged, one_at, step_judged, by_sign, nested};
ghost use Rattle.p10_elabx.specs.private.Updating.{read_updated};
ghost use Rattle.p10_elabx.specs.Built.{judged_operand, judged_value, judged_target, judged_form, ruled_operand, ruled_target, ruled_value, ruled_form};
ghost use Rattle.p10_core.specs.declared.statements.UpdateKind.TheVariants as kind;

use crate::assignment::{assigned, updated};
use crate::judged::{Judged, also_form, also_operand, also_target, unordered};
use crate::operand::{Operand, PlaceKind};
use crate::parts::{both, unused};
use crate::places::target_found;
use crate::problem::Problem;
use p10_base::{At, SubsetCode};
use p10_core::{CType, Place, StmtForm, Types, UpdateKind, Value};
use p10_int::{BinOp, IntType};
use std::alloc::{AllocError, Global};

/// What is found in the target of an assignment; `may` says whether it can be a place by its form.
#[tactic(auto, unfolding(crate::specs::Judging::target_judged))]
pub fn target_judged(
    types: &Types<'_>,
    at: At,
    may: bool,
    j: Judged<Operand>,
) -> Judged<(PlaceKind, Place)>
    requires { AreWholeStructures (plain_types types.now) }
    ensures { judged_target result ≡ target_judged only_first (plain_types types.now) at may (judged_operand j) }
{
    let Judged { found, acts, reads } = j;
    let found = match found {
        Ok(operand) => target_found(types, at, operand),
        Err(r) => Err(r),
    };
    also_target(
        !may,
        SubsetCode::FixedTarget,
        at,
        Judged { found, acts, reads },
    )
}

/// `P = e`, if both operands are found.
fn assignment_found(
    alloc: Global,
    at: At,
    a: Result<(PlaceKind, Place), Option<Problem>>,
    b: Result<Value, Option<Problem>>,
) -> Result<Result<StmtForm, Option<Problem>>, AllocError>
    ensures { IfOk result (λ r. lift (ruled_form r) ≡ on (pair only_first (lift (ruled_target a)) (lift (ruled_value b))) (λ (x, v). assigned at x.1 v)) }
{
    match both(a, b) {
        Ok(parts) => {
            let (target, v) = parts;
            let (_, p) = target;
            assigned(alloc, at, p, v)
        }
        Err(r) => Ok(Err(r)),
    }
}

/// What is found in `P = e`.
#[tactic(auto, unfolding(crate::specs::Judging::assignment_judged))]
pub fn assignment_judged(
    alloc: Global,
    at: At,
    target: Judged<(PlaceKind, Place)>,
    value: Judged<Value>,
) -> Result<Judged<StmtForm>, AllocError>
    ensures { IfOk result (λ j. judged_form j ≡ assignment_judged only_first at (judged_target target) (judged_value value)) }
{
    let holds = unordered(&target, &value);
    let acts = target.acts || value.acts;
    let reads = target.reads || value.reads;
    let found = assignment_found(alloc, at, target.found, value.found)?;
    Ok(also_form(
        holds,
        SubsetCode::UnspecifiedOrder,
        at,
        Judged { found, acts, reads },
    ))
}

/// Whether the read of a target is that of an object or a sensor.
fn counts_as_read(found: &Result<(PlaceKind, Place), Option<Problem>>) -> bool
    ensures { result ≡ counts_as_read (lift (ruled_target found.now)) }
{
    match found {
        Ok((PlaceKind::Frame, _)) => false,
        Ok((PlaceKind::Object | PlaceKind::Sensor, _)) => true,
        Err(_) => false,
    }
}

/// Whether the read of a target is that of a sensor.
fn counts_as_act(found: &Result<(PlaceKind, Place), Option<Problem>>) -> bool
    ensures { result ≡ counts_as_act (lift (ruled_target found.now)) }
{
    match found {
        Ok((PlaceKind::Sensor, _)) => true,
        Ok((PlaceKind::Object | PlaceKind::Frame, _)) => false,
        Err(_) => false,
    }
}

/// A target with its read.
#[tactic(auto, unfolding(crate::specs::Judging::with_read))]
fn with_read(target: Judged<(PlaceKind, Place)>) -> Judged<(PlaceKind, Place)>
    ensures { judged_target result ≡ with_read (judged_target target) }
{
    let Judged { found, acts, reads } = target;
    let acts = acts || counts_as_act(&found);
    let reads = reads || counts_as_read(&found);
    Judged { found, acts, reads }
}

/// `P op= e`, if both operands are found.
fn update_found(
    alloc: Global,
    types: &Types<'_>,
    at: At,
    op: BinOp,
    a: Result<(PlaceKind, Place), Option<Problem>>,
    b: Result<Value, Option<Problem>>,
) -> Result<Result<StmtForm, Option<Problem>>, AllocError>
    ensures { IfOk result (λ r. lift (ruled_form r) ≡ on (pair only_first (lift (ruled_target a)) (lift (ruled_value b))) (λ (x, v). updated (plain_types types.now) at kind.Compound op x.1 v)) }
{
    match both(a, b) {
        Ok(parts) => {
            let (target, v) = parts;
            let (_, p) = target;
            updated(alloc, types, at, UpdateKind::Compound, op, p, v)
        }
        Err(r) => Ok(Err(r)),
    }
}

/// What is found in `P op= e`.
#[tactic(auto, unfolding(crate::specs::Judging::update_judged))]
pub fn update_judged(
    alloc: Global,
    types: &Types<'_>,
    at: At,
    op: BinOp,
    target: Judged<(PlaceKind, Place)>,
    value: Judged<Value>,
) -> Result<Judged<StmtForm>, AllocError>
    ensures { IfOk result (λ j. judged_form j ≡ update_judged only_first (plain_types types.now) at op (judged_target target) (judged_value value)) }
{
    let target = with_read(target);
    let form = read_updated(alloc, types, at, op, target, value)?;
    Ok(form)
}

/// What is found in `P op= e`, where the read of the place is counted.
fn read_updated(
    alloc: Global,
    types: &Types<'_>,
    at: At,
    op: BinOp,
    target: Judged<(PlaceKind, Place)>,
    value: Judged<Value>,
) -> Result<Judged<StmtForm>, AllocError>
    ensures { IfOk result (λ j. judged_form j ≡ read_updated only_first (plain_types types.now) at op (judged_target target) (judged_value value)) }
{
    let holds = unordered(&target, &value);
    let acts = target.acts || value.acts;
    let reads = target.reads || value.reads;
    let found = update_found(alloc, types, at, op, target.found, value.found)?;
    Ok(also_form(
        holds,
        SubsetCode::UnspecifiedOrder,
        at,
        Judged { found, acts, reads },
    ))
}

/// The constant 1 of a step.
fn one_at(at: At) -> Value
    ensures { plain_value result ≡ one_at at }
{
    Value::constant(at, CType::integer(IntType::Int), 1)
}

/// What is found in `P++` or `P--`.
#[tactic(auto, unfolding(crate::specs::Judging::step_judged))]
pub fn step_judged(
    alloc: Global,
    types: &Types<'_>,
    at: At,
    op: BinOp,
    target: Judged<(PlaceKind, Place)>,
) -> Result<Judged<StmtForm>, AllocError>
    ensures { IfOk result (λ j. judged_form j ≡ step_judged (plain_types types.now) at op (judged_target target)) }
{
    let Judged { found, acts, reads } = with_read(target);
    let found = match found {
        Ok((_, p)) => updated(alloc, types, at, UpdateKind::Step, op, p, one_at(at))?,
        Err(r) => Err(r),
    };
    Ok(Judged { found, acts, reads })
}

/// What is found in an assignment, by the operator of its sign.
pub fn by_sign(
    alloc: Global,
    types: &Types<'_>,
    at: At,
    op: Option<BinOp>,
    target: Judged<(PlaceKind, Place)>,
    value: Judged<Value>,
) -> Result<Judged<StmtForm>, AllocError>
    ensures { IfOk result (λ j. judged_form j ≡ by_sign only_first (plain_types types.now) at op (judged_target target) (judged_value value)) }
{
    match op {
        None => assignment_judged(alloc, at, target, value),
        Some(op) => update_judged(alloc, types, at, op, target, value),
    }
}

/// The rows that hold in an assignment or a step, which gives no operand.
fn no_operand(found: Result<StmtForm, Option<Problem>>) -> Result<Operand, Option<Problem>>
    ensures { lift (ruled_operand result) ≡ on (lift (ruled_form found)) (λ form. nothing_said) }
{
    unused(found)
}

/// An assignment or a step where an operand is needed.
#[tactic(auto, unfolding(crate::specs::Judging::nested))]
pub fn nested(at: At, j: Judged<StmtForm>) -> Judged<Operand>
    ensures { judged_operand result ≡ nested only_first at (judged_form j) }
{
    let Judged { found, acts, reads } = j;
    let seen = Judged {
        found: no_operand(found),
        acts,
        reads,
    };
    also_operand(true, SubsetCode::NestedAssignment, at, seen)
}
