//! What begins an expression: names, literals, parentheses, casts, and operators that stand before their operand (C99 6.5.1, 6.5.3, 6.5.4).

ghost use Rattle.std.specs.Prelude.{◌≡◌, ◌+◌, ◌≤◌, ◌<◌, ◌^◌, ◌&&◌, drop, Some, None, IfOk, OnOk};
ghost use Rattle.std.specs.Result.{IsErrOf};
ghost use Rattle.p10_syn.specs.Built.{bare_of};
ghost use Rattle.p10_pexpr.specs.declared.trouble.Trouble.TheVariants.{Refused};
ghost use Rattle.p10_syn.specs.declared.sign.Sign.TheVariants.{Open};
ghost use Rattle.p10_pexpr.specs.Heads.{heads};
ghost use Rattle.p10_pexpr.specs.Tables.{begins_specifiers as begins};
ghost use Rattle.p10_pexpr.specs.Reading.{readers};
ghost use Rattle.p10_pexpr.specs.ExpressionReading.{strings_at, cast_at, parenthesised_at, group_at, sizeof_type_at, sizeof_expression_at, sizeof_at, unary_at, step_at, operand_by as operand_begun, operand_at};

use crate::cursor::Cursor;
use crate::declarator::type_name;
use crate::expression::expression;
use crate::next::{Start, begins_after, begins_specifiers};
use crate::scope::Scope;
use crate::stopping::stopped;
use crate::trouble::Trouble;
use p10_syn::{Expr, Side, Sign, Token};
use std::alloc::Global;

/// Reads an operand.
#[cycle(reading)]
pub fn operand<'s>(
    alloc: Global,
    budget: usize,
    scope: &mut Scope<'s>,
    cursor: &mut Cursor<'_, 's>,
) -> Result<Expr<'s>, Trouble>
    requires { budget + 1 < 2 ^ 64 }
    ensures ok { IfOk result (λ t. operand_at (readers budget) scope.old cursor.old ≡ Some (bare_of t, cursor.new)) }
    ensures refused { IsErrOf result Refused → operand_at (readers budget) scope.old cursor.old ≡ None }
    ensures scope { OnOk result (scope.new ≡ scope.old) }
    ensures few { IfOk result (λ t. t.parens ≤ budget + 1) }
{
    let Some(token) = cursor.take() else {
        return Err(Trouble::Refused);
    };
    match token {
        Token::Name(text) => {
            if scope.is_type(text) {
                Err(Trouble::Refused)
            } else {
                Ok(p10_make::name(text))
            }
        }
        Token::Number(text) => Ok(p10_make::number(text)),
        Token::Char(text) => Ok(p10_make::character(text)),
        Token::Str(text) => strings(alloc, text, cursor),
        Token::Fixed(sign) => operand_by(alloc, budget, scope, Start::of(sign), cursor),
        Token::Mark(_) => Err(Trouble::Refused),
        Token::Other(_) => Err(Trouble::Refused),
    }
}

/// Reads the strings that stand after a first one.
#[tactic(auto, using(crate::proofs::Runs::strings_more, crate::proofs::Runs::strings_end, crate::proofs::Runs::strings_shorter))]
fn strings<'s>(
    alloc: Global,
    first: &'s [u8],
    cursor: &mut Cursor<'_, 's>,
) -> Result<Expr<'s>, Trouble>
    ensures ok { IfOk result (λ t. strings_at first.now cursor.old ≡ (bare_of t, cursor.new)) }
    ensures refused { IsErrOf result Refused → ⊥ }
    ensures few { IfOk result (λ t. t.parens ≡ 0) }
{
    let mut texts = Vec::new(alloc);
    texts.push(first)?;
    while let Some(text) = cursor.next_string() {
        texts.push(text)?;
        cursor.advance();
    }
    Ok(p10_make::string(texts))
}

/// Reads an operand after the keyword or punctuator that begins it.
#[cycle(reading)]
fn operand_by<'s>(
    alloc: Global,
    budget: usize,
    scope: &mut Scope<'s>,
    start: Start,
    cursor: &mut Cursor<'_, 's>,
) -> Result<Expr<'s>, Trouble>
    requires { budget + 1 < 2 ^ 64 }
    ensures ok { IfOk result (λ t. operand_begun (readers budget) scope.old start cursor.old ≡ Some (bare_of t, cursor.new)) }
    ensures refused { IsErrOf result Refused → operand_begun (readers budget) scope.old start cursor.old ≡ None }
    ensures scope { OnOk result (scope.new ≡ scope.old) }
    ensures few { IfOk result (λ t. t.parens ≤ budget + 1) }
{
    match start {
        Start::Groups => group(alloc, budget, scope, cursor),
        Start::Operates(sign) => unary(alloc, budget, scope, sign, cursor),
        Start::Steps(sign) => step(alloc, budget, scope, sign, cursor),
        Start::Measures => sizeof(alloc, budget, scope, cursor),
        Start::Nothing => Err(Trouble::Refused),
    }
}

/// Reads what stands after `(`: a cast or an expression in parentheses.
#[cycle(reading)]
fn group<'s>(
    alloc: Global,
    budget: usize,
    scope: &mut Scope<'s>,
    cursor: &mut Cursor<'_, 's>,
) -> Result<Expr<'s>, Trouble>
    requires { budget + 1 < 2 ^ 64 }
    ensures ok { IfOk result (λ t. group_at (readers budget) scope.old cursor.old ≡ Some (bare_of t, cursor.new)) }
    ensures refused { IsErrOf result Refused → group_at (readers budget) scope.old cursor.old ≡ None }
    ensures scope { OnOk result (scope.new ≡ scope.old) }
    ensures few { IfOk result (λ t. t.parens ≤ budget + 1) }
{
    if begins_specifiers(scope, cursor) {
        cast(alloc, budget, scope, cursor)
    } else {
        parenthesised(alloc, budget, scope, cursor)
    }
}

/// Reads what stands after the `(` of a cast.
#[cycle(reading)]
fn cast<'s>(
    alloc: Global,
    budget: usize,
    scope: &mut Scope<'s>,
    cursor: &mut Cursor<'_, 's>,
) -> Result<Expr<'s>, Trouble>
    ensures ok { IfOk result (λ t. cast_at (readers budget) scope.old cursor.old ≡ Some (bare_of t, cursor.new)) }
    ensures refused { IsErrOf result Refused → cast_at (readers budget) scope.old cursor.old ≡ None }
    ensures scope { OnOk result (scope.new ≡ scope.old) }
    ensures few { IfOk result (λ t. t.parens ≡ 0) }
{
    let kind = type_name(alloc, budget, scope, cursor)?;
    if let Err(trouble) = cursor.expect(Sign::Close) {
        return stopped(kind, trouble);
    }
    match expression(alloc, budget, scope, 14, cursor) {
        Ok(operand) => Ok(p10_make::cast(alloc, kind, operand)?),
        Err(trouble) => stopped(kind, trouble),
    }
}

/// Reads an expression and the `)` after it.
#[cycle(reading)]
fn parenthesised<'s>(
    alloc: Global,
    budget: usize,
    scope: &mut Scope<'s>,
    cursor: &mut Cursor<'_, 's>,
) -> Result<Expr<'s>, Trouble>
    requires { budget + 1 < 2 ^ 64 }
    ensures ok { IfOk result (λ t. parenthesised_at (readers budget) scope.old cursor.old ≡ Some (bare_of t, cursor.new)) }
    ensures refused { IsErrOf result Refused → parenthesised_at (readers budget) scope.old cursor.old ≡ None }
    ensures scope { OnOk result (scope.new ≡ scope.old) }
    ensures few { IfOk result (λ t. t.parens ≤ budget + 1) }
{
    let inner = expression(alloc, budget, scope, 1, cursor)?;
    match cursor.expect(Sign::Close) {
        Ok(()) => Ok(p10_make::grouped(inner)),
        Err(trouble) => stopped(inner, trouble),
    }
}

/// Reads the operand of an operator before it.
#[cycle(reading)]
fn unary<'s>(
    alloc: Global,
    budget: usize,
    scope: &mut Scope<'s>,
    sign: Sign,
    cursor: &mut Cursor<'_, 's>,
) -> Result<Expr<'s>, Trouble>
    ensures ok { IfOk result (λ t. unary_at (readers budget) scope.old sign cursor.old ≡ Some (bare_of t, cursor.new)) }
    ensures refused { IsErrOf result Refused → unary_at (readers budget) scope.old sign cursor.old ≡ None }
    ensures scope { OnOk result (scope.new ≡ scope.old) }
    ensures few { IfOk result (λ t. t.parens ≡ 0) }
{
    let operand = expression(alloc, budget, scope, 14, cursor)?;
    Ok(p10_make::unary(alloc, sign, operand)?)
}

/// Reads the operand of `++` or `--` before it.
#[cycle(reading)]
fn step<'s>(
    alloc: Global,
    budget: usize,
    scope: &mut Scope<'s>,
    sign: Sign,
    cursor: &mut Cursor<'_, 's>,
) -> Result<Expr<'s>, Trouble>
    ensures ok { IfOk result (λ t. step_at (readers budget) scope.old sign cursor.old ≡ Some (bare_of t, cursor.new)) }
    ensures refused { IsErrOf result Refused → step_at (readers budget) scope.old sign cursor.old ≡ None }
    ensures scope { OnOk result (scope.new ≡ scope.old) }
    ensures few { IfOk result (λ t. t.parens ≡ 0) }
{
    let operand = expression(alloc, budget, scope, 15, cursor)?;
    Ok(p10_make::step(alloc, Side::Before, sign, operand)?)
}

/// Reads what stands after `sizeof`.
#[cycle(reading)]
fn sizeof<'s>(
    alloc: Global,
    budget: usize,
    scope: &mut Scope<'s>,
    cursor: &mut Cursor<'_, 's>,
) -> Result<Expr<'s>, Trouble>
    ensures ok { IfOk result (λ t. sizeof_at (readers budget) scope.old cursor.old ≡ Some (bare_of t, cursor.new)) }
    ensures refused { IsErrOf result Refused → sizeof_at (readers budget) scope.old cursor.old ≡ None }
    ensures scope { OnOk result (scope.new ≡ scope.old) }
    ensures few { IfOk result (λ t. t.parens ≡ 0) }
{
    if opens_type(scope, cursor) {
        cursor.advance();
        sizeof_type(alloc, budget, scope, cursor)
    } else {
        sizeof_expression(alloc, budget, scope, cursor)
    }
}

/// Whether `(` and the name of a type stand next.
fn opens_type(scope: &Scope<'_>, cursor: &Cursor<'_, '_>) -> bool
    ensures { result ≡ (heads Open cursor.now && begins scope.now (drop 1 cursor.now)) }
{
    cursor.heads(Sign::Open) && begins_after(scope, cursor)
}

/// Reads the name of a type and the `)` after it.
#[cycle(reading)]
fn sizeof_type<'s>(
    alloc: Global,
    budget: usize,
    scope: &mut Scope<'s>,
    cursor: &mut Cursor<'_, 's>,
) -> Result<Expr<'s>, Trouble>
    ensures ok { IfOk result (λ t. sizeof_type_at (readers budget) scope.old cursor.old ≡ Some (bare_of t, cursor.new)) }
    ensures refused { IsErrOf result Refused → sizeof_type_at (readers budget) scope.old cursor.old ≡ None }
    ensures scope { OnOk result (scope.new ≡ scope.old) }
    ensures few { IfOk result (λ t. t.parens ≡ 0) }
{
    let kind = type_name(alloc, budget, scope, cursor)?;
    match cursor.expect(Sign::Close) {
        Ok(()) => Ok(p10_make::sizeof_type(alloc, kind)?),
        Err(trouble) => stopped(kind, trouble),
    }
}

/// Reads the operand of `sizeof`.
#[cycle(reading)]
fn sizeof_expression<'s>(
    alloc: Global,
    budget: usize,
    scope: &mut Scope<'s>,
    cursor: &mut Cursor<'_, 's>,
) -> Result<Expr<'s>, Trouble>
    ensures ok { IfOk result (λ t. sizeof_expression_at (readers budget) scope.old cursor.old ≡ Some (bare_of t, cursor.new)) }
    ensures refused { IsErrOf result Refused → sizeof_expression_at (readers budget) scope.old cursor.old ≡ None }
    ensures scope { OnOk result (scope.new ≡ scope.old) }
    ensures few { IfOk result (λ t. t.parens ≡ 0) }
{
    let operand = expression(alloc, budget, scope, 15, cursor)?;
    Ok(p10_make::sizeof_expr(alloc, operand)?)
}
