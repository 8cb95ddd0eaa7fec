//! Expressions (C99 6.5): an operand, and what goes on after it by the levels of operators.

ghost use Rattle.std.specs.Prelude.{◌≡◌, ◌≤◌, ◌<◌, ◌^◌, [], map, Some, None, IfOk, OnOk};
ghost use Rattle.std.specs.Result.{IsErrOf};
ghost use Rattle.p10_syn.specs.Built.{bare_of};
ghost use Rattle.p10_pexpr.specs.declared.trouble.Trouble.TheVariants.{Refused};
ghost use Rattle.p10_pexpr.specs.Reading.{readers, no_readers};
ghost use Rattle.p10_pexpr.specs.ExpressionReading.{join_at, assign_at, conditional_at, comma_at, index_at, arguments_at, call_at, member_of, arrow_of, part_by};

use crate::cursor::Cursor;
use crate::next::Next;
use crate::operand::operand;
use crate::scope::Scope;
use crate::stopping::{push_one, stopped, stopped_after_two};
use crate::trouble::Trouble;
use p10_syn::{Expr, Side, Sign, binary_level};
use std::alloc::Global;

/// Reads an expression of this level at least.
#[cycle(reading)]
#[tactic(auto, using(crate::proofs::ReadingSteps::nothing_deep, crate::proofs::ReadingSteps::expression_no_operand, crate::proofs::ReadingSteps::expression_loose, crate::proofs::ReadingSteps::expression_chain))]
pub fn expression<'s>(
    alloc: Global,
    budget: usize,
    scope: &mut Scope<'s>,
    level: u8,
    cursor: &mut Cursor<'_, 's>,
) -> Result<Expr<'s>, Trouble>
    requires { budget < 2 ^ 64 }
    ensures ok { IfOk result (λ t. (readers budget).expression scope.old level cursor.old ≡ Some (bare_of t, cursor.new)) }
    ensures refused { IsErrOf result Refused → (readers budget).expression scope.old level cursor.old ≡ None }
    ensures scope { OnOk result (scope.new ≡ scope.old) }
    ensures few { IfOk result (λ t. t.parens ≤ budget) }
{
    if budget == 0 {
        return Err(Trouble::Refused);
    }
    let left = operand(alloc, budget - 1, scope, cursor)?;
    if p10_syn::level(&left) < level {
        return stopped(left, Trouble::Refused);
    }
    chain(alloc, budget - 1, scope, level, left, cursor)
}

/// Goes on after an expression.
#[cycle(reading)]
#[tactic(auto, using(crate::proofs::ReadingSteps::chain_nothing, crate::proofs::ReadingSteps::chain_stops, crate::proofs::ReadingSteps::chain_fails, crate::proofs::ReadingSteps::chain_next))]
fn chain<'s>(
    alloc: Global,
    budget: usize,
    scope: &mut Scope<'s>,
    level: u8,
    left: Expr<'s>,
    cursor: &mut Cursor<'_, 's>,
) -> Result<Expr<'s>, Trouble>
    ensures ok { IfOk result (λ t. (readers budget).chain scope.old level (bare_of left.entry) cursor.old ≡ Some (bare_of t, cursor.new)) }
    ensures refused { IsErrOf result Refused → (readers budget).chain scope.old level (bare_of left.entry) cursor.old ≡ None }
    ensures scope { OnOk result (scope.new ≡ scope.old) }
    ensures few { IfOk result (λ t. t.parens ≤ left.entry.parens) }
{
    let mut whole = left;
    let mut fuel = budget;
    while fuel > 0 {
        let next = Next::at(cursor);
        if !next.goes_on(level, p10_syn::level(&whole)) {
            return Ok(whole);
        }
        fuel -= 1;
        cursor.advance();
        whole = part(alloc, fuel, scope, whole, next, cursor)?;
    }
    stopped(whole, Trouble::Refused)
}

/// Reads one further part of an expression, after the word that goes on with it.
#[cycle(reading)]
fn part<'s>(
    alloc: Global,
    budget: usize,
    scope: &mut Scope<'s>,
    left: Expr<'s>,
    next: Next,
    cursor: &mut Cursor<'_, 's>,
) -> Result<Expr<'s>, Trouble>
    ensures ok { IfOk result (λ t. part_by (readers budget) scope.old (bare_of left.entry) next cursor.old ≡ Some (bare_of t, cursor.new)) }
    ensures refused { IsErrOf result Refused → part_by (readers budget) scope.old (bare_of left.entry) next cursor.old ≡ None }
    ensures scope { OnOk result (scope.new ≡ scope.old) }
    ensures few { IfOk result (λ t. t.parens ≡ 0) }
{
    match next {
        Next::Joins(sign) => join(alloc, budget, scope, left, sign, cursor),
        Next::Sets(sign) => assign(alloc, budget, scope, left, sign, cursor),
        Next::Asks => conditional(alloc, budget, scope, left, cursor),
        Next::Lists => comma(alloc, budget, scope, left, cursor),
        Next::Indexes => index(alloc, budget, scope, left, cursor),
        Next::Calls => call(alloc, budget, scope, left, cursor),
        Next::Selects => member(alloc, left, cursor),
        Next::Points => arrow(alloc, left, cursor),
        Next::Counts(sign) => Ok(p10_make::step(alloc, Side::After, sign, left)?),
        Next::Quotes => stopped(left, Trouble::Refused),
        Next::Ends => stopped(left, Trouble::Refused),
    }
}

/// Reads the right operand of an operator.
#[cycle(reading)]
fn join<'s>(
    alloc: Global,
    budget: usize,
    scope: &mut Scope<'s>,
    left: Expr<'s>,
    sign: Sign,
    cursor: &mut Cursor<'_, 's>,
) -> Result<Expr<'s>, Trouble>
    ensures ok { IfOk result (λ t. join_at (readers budget) scope.old (bare_of left.entry) sign cursor.old ≡ Some (bare_of t, cursor.new)) }
    ensures refused { IsErrOf result Refused → join_at (readers budget) scope.old (bare_of left.entry) sign cursor.old ≡ None }
    ensures scope { OnOk result (scope.new ≡ scope.old) }
    ensures few { IfOk result (λ t. t.parens ≡ 0) }
{
    match expression(alloc, budget, scope, binary_level(sign) + 1, cursor) {
        Ok(right) => Ok(p10_make::binary(alloc, sign, left, right)?),
        Err(trouble) => stopped(left, trouble),
    }
}

/// Reads the value of an assignment.
#[cycle(reading)]
fn assign<'s>(
    alloc: Global,
    budget: usize,
    scope: &mut Scope<'s>,
    left: Expr<'s>,
    sign: Sign,
    cursor: &mut Cursor<'_, 's>,
) -> Result<Expr<'s>, Trouble>
    ensures ok { IfOk result (λ t. assign_at (readers budget) scope.old (bare_of left.entry) sign cursor.old ≡ Some (bare_of t, cursor.new)) }
    ensures refused { IsErrOf result Refused → assign_at (readers budget) scope.old (bare_of left.entry) sign cursor.old ≡ None }
    ensures scope { OnOk result (scope.new ≡ scope.old) }
    ensures few { IfOk result (λ t. t.parens ≡ 0) }
{
    match expression(alloc, budget, scope, 2, cursor) {
        Ok(right) => Ok(p10_make::assign(alloc, sign, left, right)?),
        Err(trouble) => stopped(left, trouble),
    }
}

/// Reads what stands after `?`.
#[cycle(reading)]
fn conditional<'s>(
    alloc: Global,
    budget: usize,
    scope: &mut Scope<'s>,
    left: Expr<'s>,
    cursor: &mut Cursor<'_, 's>,
) -> Result<Expr<'s>, Trouble>
    ensures ok { IfOk result (λ t. conditional_at (readers budget) scope.old (bare_of left.entry) cursor.old ≡ Some (bare_of t, cursor.new)) }
    ensures refused { IsErrOf result Refused → conditional_at (readers budget) scope.old (bare_of left.entry) cursor.old ≡ None }
    ensures scope { OnOk result (scope.new ≡ scope.old) }
    ensures few { IfOk result (λ t. t.parens ≡ 0) }
{
    let first = match expression(alloc, budget, scope, 1, cursor) {
        Ok(first) => first,
        Err(trouble) => return stopped(left, trouble),
    };
    if let Err(trouble) = cursor.expect(Sign::Colon) {
        return stopped_after_two(left, first, trouble);
    }
    match expression(alloc, budget, scope, 3, cursor) {
        Ok(second) => Ok(p10_make::conditional(alloc, left, first, second)?),
        Err(trouble) => stopped_after_two(left, first, trouble),
    }
}

/// Reads the further operands of a comma.
#[cycle(reading)]
fn comma<'s>(
    alloc: Global,
    budget: usize,
    scope: &mut Scope<'s>,
    left: Expr<'s>,
    cursor: &mut Cursor<'_, 's>,
) -> Result<Expr<'s>, Trouble>
    ensures ok { IfOk result (λ t. comma_at (readers budget) scope.old (bare_of left.entry) cursor.old ≡ Some (bare_of t, cursor.new)) }
    ensures refused { IsErrOf result Refused → comma_at (readers budget) scope.old (bare_of left.entry) cursor.old ≡ None }
    ensures scope { OnOk result (scope.new ≡ scope.old) }
    ensures few { IfOk result (λ t. t.parens ≡ 0) }
{
    match list(alloc, budget, scope, cursor) {
        Ok(others) => Ok(p10_make::comma(left, others)?),
        Err(trouble) => stopped(left, trouble),
    }
}

/// Reads what stands after `[`.
#[cycle(reading)]
fn index<'s>(
    alloc: Global,
    budget: usize,
    scope: &mut Scope<'s>,
    left: Expr<'s>,
    cursor: &mut Cursor<'_, 's>,
) -> Result<Expr<'s>, Trouble>
    ensures ok { IfOk result (λ t. index_at (readers budget) scope.old (bare_of left.entry) cursor.old ≡ Some (bare_of t, cursor.new)) }
    ensures refused { IsErrOf result Refused → index_at (readers budget) scope.old (bare_of left.entry) cursor.old ≡ None }
    ensures scope { OnOk result (scope.new ≡ scope.old) }
    ensures few { IfOk result (λ t. t.parens ≡ 0) }
{
    let inner = match expression(alloc, budget, scope, 1, cursor) {
        Ok(inner) => inner,
        Err(trouble) => return stopped(left, trouble),
    };
    match cursor.expect(Sign::CloseSquare) {
        Ok(()) => Ok(p10_make::index(alloc, left, inner)?),
        Err(trouble) => stopped_after_two(left, inner, trouble),
    }
}

/// Reads what stands after the `(` of a call.
#[cycle(reading)]
fn call<'s>(
    alloc: Global,
    budget: usize,
    scope: &mut Scope<'s>,
    left: Expr<'s>,
    cursor: &mut Cursor<'_, 's>,
) -> Result<Expr<'s>, Trouble>
    ensures ok { IfOk result (λ t. call_at (readers budget) scope.old (bare_of left.entry) cursor.old ≡ Some (bare_of t, cursor.new)) }
    ensures refused { IsErrOf result Refused → call_at (readers budget) scope.old (bare_of left.entry) cursor.old ≡ None }
    ensures scope { OnOk result (scope.new ≡ scope.old) }
    ensures few { IfOk result (λ t. t.parens ≡ 0) }
{
    if cursor.heads(Sign::Close) {
        cursor.advance();
        Ok(p10_make::call(alloc, left, Vec::new(alloc))?)
    } else {
        arguments(alloc, budget, scope, left, cursor)
    }
}

/// Reads arguments, of which there is one at least.
#[cycle(reading)]
fn arguments<'s>(
    alloc: Global,
    budget: usize,
    scope: &mut Scope<'s>,
    left: Expr<'s>,
    cursor: &mut Cursor<'_, 's>,
) -> Result<Expr<'s>, Trouble>
    ensures ok { IfOk result (λ t. arguments_at (readers budget) scope.old (bare_of left.entry) cursor.old ≡ Some (bare_of t, cursor.new)) }
    ensures refused { IsErrOf result Refused → arguments_at (readers budget) scope.old (bare_of left.entry) cursor.old ≡ None }
    ensures scope { OnOk result (scope.new ≡ scope.old) }
    ensures few { IfOk result (λ t. t.parens ≡ 0) }
{
    let all = match list(alloc, budget, scope, cursor) {
        Ok(all) => all,
        Err(trouble) => return stopped(left, trouble),
    };
    match cursor.expect(Sign::Close) {
        Ok(()) => Ok(p10_make::call(alloc, left, all)?),
        Err(trouble) => stopped_after_two(left, all, trouble),
    }
}

/// Reads the name of a member after `.`.
fn member<'s>(
    alloc: Global,
    left: Expr<'s>,
    cursor: &mut Cursor<'_, 's>,
) -> Result<Expr<'s>, Trouble>
    ensures ok { IfOk result (λ t. member_of no_readers (bare_of left.entry) cursor.old ≡ Some (bare_of t, cursor.new)) }
    ensures refused { IsErrOf result Refused → member_of no_readers (bare_of left.entry) cursor.old ≡ None }
    ensures few { IfOk result (λ t. t.parens ≡ 0) }
{
    match cursor.name() {
        Ok(name) => Ok(p10_make::member(alloc, left, name)?),
        Err(trouble) => stopped(left, trouble),
    }
}

/// Reads the name of a member after `->`.
fn arrow<'s>(
    alloc: Global,
    left: Expr<'s>,
    cursor: &mut Cursor<'_, 's>,
) -> Result<Expr<'s>, Trouble>
    ensures ok { IfOk result (λ t. arrow_of no_readers (bare_of left.entry) cursor.old ≡ Some (bare_of t, cursor.new)) }
    ensures refused { IsErrOf result Refused → arrow_of no_readers (bare_of left.entry) cursor.old ≡ None }
    ensures few { IfOk result (λ t. t.parens ≡ 0) }
{
    match cursor.name() {
        Ok(name) => Ok(p10_make::arrow(alloc, left, name)?),
        Err(trouble) => stopped(left, trouble),
    }
}

/// Reads expressions with commas between them.
#[cycle(reading)]
#[tactic(auto, using(crate::proofs::ReadingSteps::list_nothing, crate::proofs::ReadingSteps::list_none, crate::proofs::ReadingSteps::list_ends, crate::proofs::ReadingSteps::list_next))]
fn list<'s>(
    alloc: Global,
    budget: usize,
    scope: &mut Scope<'s>,
    cursor: &mut Cursor<'_, 's>,
) -> Result<Vec<Expr<'s>>, Trouble>
    ensures ok { IfOk result (λ t. (readers budget).list scope.old [] cursor.old ≡ Some (map bare_of t.items, cursor.new)) }
    ensures refused { IsErrOf result Refused → (readers budget).list scope.old [] cursor.old ≡ None }
    ensures scope { OnOk result (scope.new ≡ scope.old) }
{
    let mut all = Vec::new(alloc);
    let mut fuel = budget;
    while fuel > 0 {
        fuel -= 1;
        let next = expression(alloc, fuel, scope, 2, cursor)?;
        push_one(&mut all, next)?;
        if !cursor.heads(Sign::Comma) {
            return Ok(all);
        }
        cursor.advance();
    }
    Err(Trouble::Refused)
}
