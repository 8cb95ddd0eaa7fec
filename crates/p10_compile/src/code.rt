//! Operations in a row. Each of these functions fails only where memory runs out.

ghost use Rattle.std.specs.Prelude.{◌≡◌, ◌+◌, ◌++◌, ◌∷◌, [], length, map, IfOk};
ghost use Rattle.p10_code.specs.Operations.{branch};
ghost use Rattle.p10_code.specs.ValueCode.{op};
ghost use Rattle.p10_compile.specs.Views.{plain_op, plain_action, plain_operand};

use crate::counts::place_after;
use crate::operations::{Action, Op, Operand};
use p10_base::Span;
use std::alloc::{AllocError, Global};

/// The code of a value or a place: its operations, the steps that are owed after them, and the operand that the value or the
/// pointer to the place is.
#[derive(Drop)]
pub struct Part<'p> {
    pub code: Vec<Op<'p>>,
    pub debt: u64,
    pub operand: Operand,
}

/// No operations.
pub fn none<'p>(alloc: Global) -> Vec<Op<'p>>
    ensures { map plain_op result.items ≡ [] }
{
    Vec::new(alloc)
}

/// One operation.
pub fn one(alloc: Global, only: Op<'_>) -> Result<Vec<Op<'_>>, AllocError>
    ensures { IfOk result (λ code. map plain_op code.items ≡ plain_op only.entry ∷ []) }
{
    let mut code = Vec::new(alloc);
    code.push(only)?;
    Ok(code)
}

/// Operations, and one after them.
#[tactic(auto, using(crate::proofs::Rows::map_joined))]
pub fn ended<'p>(code: Vec<Op<'p>>, last: Op<'p>) -> Result<Vec<Op<'p>>, AllocError>
    ensures { IfOk result (λ all. map plain_op all.items ≡ map plain_op code.entry.items ++ plain_op last.entry ∷ []) }
{
    let mut all = code;
    all.push(last)?;
    Ok(all)
}

/// Operations, and others after them.
#[tactic(auto, using(crate::proofs::Rows::map_joined))]
pub fn joined<'p>(code: Vec<Op<'p>>, others: Vec<Op<'p>>) -> Result<Vec<Op<'p>>, AllocError>
    ensures { IfOk result (λ all. map plain_op all.items ≡ map plain_op code.entry.items ++ map plain_op others.entry.items) }
{
    let mut all = code;
    let mut rest = others;
    all.append(&mut rest)?;
    Ok(all)
}

/// An operation, and others after it.
pub fn led<'p>(alloc: Global, first: Op<'p>, others: Vec<Op<'p>>) -> Result<Vec<Op<'p>>, AllocError>
    ensures { IfOk result (λ all. map plain_op all.items ≡ plain_op first.entry ∷ map plain_op others.entry.items) }
{
    joined(one(alloc, first)?, others)
}

/// A value, and the branch that it decides.
pub fn branched<'p>(
    part: Part<'p>,
    span: Span,
    hit: usize,
    miss: usize,
) -> Result<Vec<Op<'p>>, AllocError>
    ensures { IfOk result (λ code. map plain_op code.items ≡ map plain_op part.entry.code.items ++ op part.entry.debt span (branch (plain_operand part.entry.operand) hit miss) ∷ []) }
{
    let Part {
        code,
        debt,
        operand,
    } = part;
    ended(code, op(debt, span, Action::Branch(operand, hit, miss)))
}

/// Two parts, and an action after them that pays what is owed.
pub fn both_ended<'p>(
    left: Part<'p>,
    right: Part<'p>,
    span: Span,
    action: Action<'p>,
) -> Result<Vec<Op<'p>>, AllocError>
    ensures { IfOk result (λ code. map plain_op code.items ≡ map plain_op left.entry.code.items ++ (map plain_op right.entry.code.items ++ op right.entry.debt span (plain_action action.entry) ∷ [])) }
{
    let Part {
        code: first,
        debt: _,
        operand: _,
    } = left;
    let Part {
        code: second,
        debt,
        operand: _,
    } = right;
    joined(first, ended(second, op(debt, span, action))?)
}

/// How many operations there are.
pub fn operation_count(code: &[Op<'_>]) -> usize
    ensures { result ≡ length (map plain_op code.now) }
{
    code.len()
}

/// The place after operations.
pub fn past(at: usize, code: &[Op<'_>]) -> Result<usize, AllocError>
    ensures { IfOk result (λ n. n ≡ at + length (map plain_op code.now)) }
{
    place_after(at, code.len())
}

/// The place after operations and a branch.
pub fn past_branch(at: usize, code: &[Op<'_>]) -> Result<usize, AllocError>
    ensures { IfOk result (λ n. n ≡ at + (length (map plain_op code.now) + 1)) }
{
    place_after(at, place_after(code.len(), 1)?)
}

/// An operation.
pub fn op<'p>(cost: u64, span: Span, action: Action<'p>) -> Op<'p>
    ensures { plain_op result ≡ record { cost = cost; span = span; action = plain_action action.entry } }
{
    Op { cost, span, action }
}
