//! What is found in operators whose operands are judged (C99 6.5): a function for each form of expression.

ghost use Rattle.std.specs.Prelude.{◌≡◌, IfOk};
ghost use Rattle.p10_core.specs.Types.{plain_type};
ghost use Rattle.p10_core.specs.Views.{plain_types, plain_value};
ghost use Rattle.p10_core.specs.WholePrograms.{AreWholeStructures};
ghost use Rattle.p10_elabx.specs.First.{only_first, on, pair, lift};
ghost use Rattle.p10_elabx.specs.Operators.{indexed, member_found, arrow_found, operand_size, address_found, binary_value, logic_value, conditional_value};
ghost use Rattle.p10_elabx.specs.Judging.{valued, unary_found, unary_judged, is_and, unary_by_sign, address_judged, values_judged, truth_judged, binary_judged, conditional_judged, index_judged, member_judged, arrow_judged, size_judged};
ghost use Rattle.p10_elabx.specs.Built.{judged_operand, judged_value, ruled_operand, ruled_value};

use crate::judged::{Judged, also_operand, unordered};
use crate::operand::Operand;
use crate::operators::{binary_value, conditional_value, logic_value, unary_value};
use crate::parts::both;
use crate::places::{
    address_found, arrow_found, dereferenced, indexed, member_found, operand_size,
};
use crate::problem::Problem;
use crate::signs::{Operation, is_and};
use crate::values::as_value;
use p10_base::{At, SubsetCode};
use p10_core::{LogicOp, Types, Value};
use p10_int::{BinOp, UnOp};
use p10_syn::Sign;
use std::alloc::{AllocError, Global};

/// A value as an operand.
pub fn valued(found: Result<Value, Option<Problem>>) -> Result<Operand, Option<Problem>>
    ensures { ruled_operand result ≡ valued (ruled_value found) }
{
    match found {
        Ok(v) => Ok(Operand::Value(v)),
        Err(r) => Err(r),
    }
}

/// A unary operator on a value.
fn unary_found(
    alloc: Global,
    at: At,
    sign: Sign,
    v: Value,
) -> Result<Result<Operand, Option<Problem>>, AllocError>
    ensures { IfOk result (λ r. ruled_operand r ≡ unary_found at sign (plain_value v)) }
{
    match sign {
        Sign::Star => dereferenced(alloc, at, v),
        Sign::Plus => Ok(valued(unary_value(alloc, at, UnOp::Plus, v)?)),
        Sign::Minus => Ok(valued(unary_value(alloc, at, UnOp::Neg, v)?)),
        Sign::Tilde => Ok(valued(unary_value(alloc, at, UnOp::Com, v)?)),
        Sign::Not => Ok(valued(unary_value(alloc, at, UnOp::Not, v)?)),
        _ => Ok(Err(None)),
    }
}

/// What is found in a unary operator other than `&`.
#[tactic(auto, unfolding(crate::specs::Judging::unary_judged))]
pub fn unary_judged(
    alloc: Global,
    at: At,
    sign: Sign,
    j: Judged<Value>,
) -> Result<Judged<Operand>, AllocError>
    ensures { IfOk result (λ r. judged_operand r ≡ unary_judged at sign (judged_value j)) }
{
    let Judged { found, acts, reads } = j;
    let found = match found {
        Ok(v) => unary_found(alloc, at, sign, v)?,
        Err(r) => Err(r),
    };
    Ok(Judged { found, acts, reads })
}

/// What is found in `&`; `may` says whether its operand can be a place by its form.
#[tactic(auto, unfolding(crate::specs::Judging::address_judged))]
pub fn address_judged(
    alloc: Global,
    at: At,
    may: bool,
    j: Judged<Operand>,
) -> Result<Judged<Operand>, AllocError>
    ensures { IfOk result (λ r. judged_operand r ≡ address_judged only_first at may (judged_operand j)) }
{
    let Judged { found, acts, reads } = j;
    let found = match found {
        Ok(operand) => address_found(alloc, at, operand)?,
        Err(r) => Err(r),
    };
    Ok(also_operand(
        !may,
        SubsetCode::NoAddress,
        at,
        Judged { found, acts, reads },
    ))
}

/// A binary operator on two values, if both are found.
fn values_found(
    alloc: Global,
    types: &Types<'_>,
    at: At,
    op: BinOp,
    a: Result<Value, Option<Problem>>,
    b: Result<Value, Option<Problem>>,
) -> Result<Result<Operand, Option<Problem>>, AllocError>
    ensures { IfOk result (λ r. lift (ruled_operand r) ≡ on (pair only_first (lift (ruled_value a)) (lift (ruled_value b))) (λ (x, y). valued (binary_value (plain_types types.now) at op x y))) }
{
    match both(a, b) {
        Ok(parts) => {
            let (x, y) = parts;
            let found = binary_value(alloc, types, at, op, x, y)?;
            Ok(valued(found))
        }
        Err(r) => Ok(Err(r)),
    }
}

/// What is found in an operator between two values.
#[tactic(auto, unfolding(crate::specs::Judging::values_judged))]
fn values_judged(
    alloc: Global,
    types: &Types<'_>,
    at: At,
    op: BinOp,
    a: Judged<Value>,
    b: Judged<Value>,
) -> Result<Judged<Operand>, AllocError>
    ensures { IfOk result (λ j. judged_operand j ≡ values_judged only_first (plain_types types.now) at op (judged_value a) (judged_value b)) }
{
    let holds = unordered(&a, &b);
    let acts = a.acts || b.acts;
    let reads = a.reads || b.reads;
    let found = values_found(alloc, types, at, op, a.found, b.found)?;
    Ok(also_operand(
        holds,
        SubsetCode::UnspecifiedOrder,
        at,
        Judged { found, acts, reads },
    ))
}

/// `&&` or `||` on two values, if both are found.
fn truth_found(
    alloc: Global,
    at: At,
    op: LogicOp,
    a: Result<Value, Option<Problem>>,
    b: Result<Value, Option<Problem>>,
) -> Result<Result<Operand, Option<Problem>>, AllocError>
    ensures { IfOk result (λ r. lift (ruled_operand r) ≡ on (pair only_first (lift (ruled_value a)) (lift (ruled_value b))) (λ (x, y). valued (logic_value at op x y))) }
{
    match both(a, b) {
        Ok(parts) => {
            let (x, y) = parts;
            let found = logic_value(alloc, at, op, x, y)?;
            Ok(valued(found))
        }
        Err(r) => Ok(Err(r)),
    }
}

/// What is found in `&&` or `||`.
#[tactic(auto, unfolding(crate::specs::Judging::truth_judged))]
fn truth_judged(
    alloc: Global,
    at: At,
    op: LogicOp,
    a: Judged<Value>,
    b: Judged<Value>,
) -> Result<Judged<Operand>, AllocError>
    ensures { IfOk result (λ j. judged_operand j ≡ truth_judged only_first at op (judged_value a) (judged_value b)) }
{
    let acts = a.acts || b.acts;
    let reads = a.reads || b.reads;
    let found = truth_found(alloc, at, op, a.found, b.found)?;
    Ok(Judged { found, acts, reads })
}

/// What is found in an operator between two values, by its sign.
pub fn binary_judged(
    alloc: Global,
    types: &Types<'_>,
    at: At,
    operation: Operation,
    a: Judged<Value>,
    b: Judged<Value>,
) -> Result<Judged<Operand>, AllocError>
    ensures { IfOk result (λ j. judged_operand j ≡ binary_judged only_first (plain_types types.now) at operation (judged_value a) (judged_value b)) }
{
    match operation {
        Operation::Values(op) => values_judged(alloc, types, at, op, a, b),
        Operation::Truth(op) => truth_judged(alloc, at, op, a, b),
        Operation::Nothing => Ok(Judged {
            found: Err(None),
            acts: false,
            reads: false,
        }),
    }
}

/// The second and third operand of `?:` on a first one, if all are found.
fn conditional_found(
    alloc: Global,
    at: At,
    test: Result<Value, Option<Problem>>,
    a: Result<Value, Option<Problem>>,
    b: Result<Value, Option<Problem>>,
) -> Result<Result<Operand, Option<Problem>>, AllocError>
    ensures { IfOk result (λ r. lift (ruled_operand r) ≡ on (pair only_first (lift (ruled_value test)) (pair only_first (lift (ruled_value a)) (lift (ruled_value b)))) (λ (v, (x, y)). valued (conditional_value at v x y))) }
{
    match both(test, both(a, b)) {
        Ok(parts) => {
            let (v, (x, y)) = parts;
            let found = conditional_value(alloc, at, v, x, y)?;
            Ok(valued(found))
        }
        Err(r) => Ok(Err(r)),
    }
}

/// What is found in `?:`.
#[tactic(auto, unfolding(crate::specs::Judging::conditional_judged))]
pub fn conditional_judged(
    alloc: Global,
    at: At,
    test: Judged<Value>,
    a: Judged<Value>,
    b: Judged<Value>,
) -> Result<Judged<Operand>, AllocError>
    ensures { IfOk result (λ j. judged_operand j ≡ conditional_judged only_first at (judged_value test) (judged_value a) (judged_value b)) }
{
    let acts = test.acts || (a.acts || b.acts);
    let reads = test.reads || (a.reads || b.reads);
    let found = conditional_found(alloc, at, test.found, a.found, b.found)?;
    Ok(Judged { found, acts, reads })
}

/// An element, if both operands are found.
fn index_found(
    alloc: Global,
    types: &Types<'_>,
    at: At,
    a: Result<Value, Option<Problem>>,
    b: Result<Value, Option<Problem>>,
) -> Result<Result<Operand, Option<Problem>>, AllocError>
    ensures { IfOk result (λ r. lift (ruled_operand r) ≡ on (pair only_first (lift (ruled_value a)) (lift (ruled_value b))) (λ (x, y). indexed (plain_types types.now) at x y)) }
{
    match both(a, b) {
        Ok(parts) => {
            let (x, y) = parts;
            let found = indexed(alloc, types, at, x, y)?;
            Ok(found)
        }
        Err(r) => Ok(Err(r)),
    }
}

/// What is found in `a[i]`.
#[tactic(auto, unfolding(crate::specs::Judging::index_judged))]
pub fn index_judged(
    alloc: Global,
    types: &Types<'_>,
    at: At,
    a: Judged<Value>,
    b: Judged<Value>,
) -> Result<Judged<Operand>, AllocError>
    ensures { IfOk result (λ j. judged_operand j ≡ index_judged only_first (plain_types types.now) at (judged_value a) (judged_value b)) }
{
    let holds = unordered(&a, &b);
    let acts = a.acts || b.acts;
    let reads = a.reads || b.reads;
    let found = index_found(alloc, types, at, a.found, b.found)?;
    Ok(also_operand(
        holds,
        SubsetCode::UnspecifiedOrder,
        at,
        Judged { found, acts, reads },
    ))
}

/// What is found in `.` with the name of a member.
#[tactic(auto, unfolding(crate::specs::Judging::member_judged))]
pub fn member_judged(
    alloc: Global,
    types: &Types<'_>,
    at: At,
    name: &[u8],
    j: Judged<Operand>,
) -> Result<Judged<Operand>, AllocError>
    ensures { IfOk result (λ r. judged_operand r ≡ member_judged (plain_types types.now) at name.now (judged_operand j)) }
{
    let Judged { found, acts, reads } = j;
    let found = match found {
        Ok(operand) => member_found(alloc, types, at, name, operand)?,
        Err(r) => Err(r),
    };
    Ok(Judged { found, acts, reads })
}

/// What is found in `->` with the name of a member.
#[tactic(auto, unfolding(crate::specs::Judging::arrow_judged))]
pub fn arrow_judged(
    alloc: Global,
    types: &Types<'_>,
    at: At,
    name: &[u8],
    j: Judged<Value>,
) -> Result<Judged<Operand>, AllocError>
    ensures { IfOk result (λ r. judged_operand r ≡ arrow_judged (plain_types types.now) at name.now (judged_value j)) }
{
    let Judged { found, acts, reads } = j;
    let found = match found {
        Ok(v) => arrow_found(alloc, types, at, name, v)?,
        Err(r) => Err(r),
    };
    Ok(Judged { found, acts, reads })
}

/// What is found in `sizeof` of an operand, which isn't evaluated.
#[tactic(auto, unfolding(crate::specs::Judging::size_judged))]
pub fn size_judged(types: &Types<'_>, at: At, j: Judged<Operand>) -> Judged<Operand>
    requires { AreWholeStructures (plain_types types.now) }
    ensures { judged_operand result ≡ size_judged (plain_types types.now) at (judged_operand j) }
{
    let found = match j.found {
        Ok(operand) => operand_size(types, at, operand),
        Err(r) => Err(r),
    };
    Judged {
        found,
        acts: false,
        reads: false,
    }
}

/// What is found in a unary operator: `&`, or one on a value; `may` says whether its operand can be a place by its form.
pub fn unary_by_sign(
    alloc: Global,
    types: &Types<'_>,
    at: At,
    sign: Sign,
    may: bool,
    j: Judged<Operand>,
) -> Result<Judged<Operand>, AllocError>
    ensures { IfOk result (λ r. judged_operand r ≡ unary_by_sign only_first (plain_types types.now) at (is_and sign) sign may (judged_operand j)) }
{
    if is_and(sign) {
        address_judged(alloc, at, may, j)
    } else {
        let value = as_value(alloc, types, j)?;
        unary_judged(alloc, at, sign, value)
    }
}
