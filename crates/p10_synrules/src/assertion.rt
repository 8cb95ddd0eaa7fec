//! Assertions: calls of `assert` and of `c_assert`.

ghost use Rattle.std.specs.Prelude.{◌≡◌, ◌≤◌, IfOk, map, option_map, false, length, count_by};
ghost use Rattle.std.specs.List.{list_any};
ghost use Rattle.p10_syn.specs.Trees.{expression_row};
ghost use Rattle.p10_syn.specs.Built.{expression_of};
ghost use Rattle.p10_synrules.specs.Parts.{ExpressionPart, expression_parts};
ghost use Rattle.p10_synrules.specs.Assertions.{is_named, is_c_assert, is_assert_name, is_call, is_assertion, calls_c_assert, only_one, stated_by, is_call_part, is_name_part, has_call, has_any_name, states_call, states_no_test, is_constant, is_negation, is_comparison, is_test, is_sound_assertion};
ghost use Rattle.p10_synrules.specs.private.Views.{plain_part, plain_parts};

use crate::expression::put_expression;
use crate::part::Part;
use p10_syn::{Expr, Form, Sign};
use std::alloc::{AllocError, Global};

/// Whether an expression is this name, also in parentheses.
fn is_named(e: &Expr<'_>, text: &[u8]) -> bool
    ensures { result ≡ is_named text.now (expression_of e.now) }
{
    match &e.form {
        Form::Name(name) => name.text == text,
        _ => false,
    }
}

/// Whether an expression is `c_assert`.
fn is_c_assert(e: &Expr<'_>) -> bool
    ensures { result ≡ is_c_assert (expression_of e.now) }
{
    is_named(e, b"c_assert")
}

/// Whether an expression is `assert` or `c_assert`.
fn is_assert_name(e: &Expr<'_>) -> bool
    ensures { result ≡ is_assert_name (expression_of e.now) }
{
    is_named(e, b"assert") || is_c_assert(e)
}

/// Whether an expression is a call.
fn is_call(e: &Expr<'_>) -> bool
    ensures { result ≡ is_call (expression_of e.now) }
{
    matches!(&e.form, Form::Call(_, _))
}

/// Whether an expression is an assertion.
fn is_assertion(e: &Expr<'_>) -> bool
    ensures { result ≡ is_assertion (expression_of e.now) }
{
    match &e.form {
        Form::Call(f, _) => is_assert_name(f),
        _ => false,
    }
}

/// Whether an expression is a call of `c_assert`.
pub(crate) fn calls_c_assert(e: &Expr<'_>) -> bool
    ensures { result ≡ calls_c_assert (expression_of e.now) }
{
    match &e.form {
        Form::Call(f, _) => is_c_assert(f),
        _ => false,
    }
}

/// The only one of these expressions, if there is exactly one.
fn only_one<'t, 's>(all: &'t [Expr<'s>]) -> Option<&'t Expr<'s>>
    ensures { option_map (λ e. expression_of e.now) result ≡ only_one (expression_row (map expression_of all.now)) }
{
    if all.len() == 1 { Some(&all[0]) } else { None }
}

/// What an assertion states: its only argument.
fn stated_by<'t, 's>(e: &'t Expr<'s>) -> Option<&'t Expr<'s>>
    ensures { option_map (λ e. expression_of e.now) result ≡ stated_by (expression_of e.now) }
{
    match &e.form {
        Form::Call(f, all) => {
            if is_assert_name(f) {
                only_one(all)
            } else {
                None
            }
        }
        _ => None,
    }
}

/// The parts of an expression.
fn parts_of<'t, 's>(alloc: Global, e: &'t Expr<'s>) -> Result<Vec<Part<'t, 's>>, AllocError>
    ensures { IfOk result (λ parts. plain_parts parts ≡ expression_parts false (expression_of e.now)) }
{
    let mut parts = Vec::new(alloc);
    put_expression(e, false, &mut parts)?;
    Ok(parts)
}

/// Whether a part is a call.
fn is_call_part(part: &Part<'_, '_>) -> bool
    ensures { result ≡ is_call_part (plain_part part.now) }
{
    match part {
        Part::Expression(_, e) => is_call(e),
        _ => false,
    }
}

/// Whether a part is a name.
fn is_name_part(part: &Part<'_, '_>) -> bool
    ensures { result ≡ is_name_part (plain_part part.now) }
{
    matches!(part, Part::Name(_))
}

/// Whether one of the parts is a call.
fn any_call(parts: &Vec<Part<'_, '_>>) -> bool
    ensures { result ≡ list_any is_call_part (plain_parts parts.now) }
{
    for part in parts {
        if is_call_part(part) {
            return true;
        }
    }
    false
}

/// Whether one of the parts is a name.
fn any_name(parts: &Vec<Part<'_, '_>>) -> bool
    ensures { result ≡ list_any is_name_part (plain_parts parts.now) }
{
    for part in parts {
        if is_name_part(part) {
            return true;
        }
    }
    false
}

/// Whether a call stands in an expression.
fn has_call(alloc: Global, e: &Expr<'_>) -> Result<bool, AllocError>
    ensures { IfOk result (λ has. has ≡ has_call (expression_of e.now)) }
{
    let parts = parts_of(alloc, e)?;
    Ok(any_call(&parts))
}

/// Whether a name stands in an expression.
fn has_any_name(alloc: Global, e: &Expr<'_>) -> Result<bool, AllocError>
    ensures { IfOk result (λ has. has ≡ has_any_name (expression_of e.now)) }
{
    let parts = parts_of(alloc, e)?;
    Ok(any_name(&parts))
}

/// Whether an assertion has a call in what it states.
pub(crate) fn states_call(alloc: Global, e: &Expr<'_>) -> Result<bool, AllocError>
    ensures { IfOk result (λ states. states ≡ states_call (expression_of e.now)) }
{
    match stated_by(e) {
        None => Ok(false),
        Some(operand) => has_call(alloc, operand),
    }
}

/// Whether an assertion states something whose top operator gives no truth value.
pub(crate) fn states_no_test(e: &Expr<'_>) -> bool
    ensures { result ≡ states_no_test (expression_of e.now) }
{
    match stated_by(e) {
        None => false,
        Some(operand) => !is_test(operand),
    }
}

/// Whether an assertion is constant: no name stands in what it states.
pub(crate) fn is_constant(alloc: Global, e: &Expr<'_>) -> Result<bool, AllocError>
    ensures { IfOk result (λ is. is ≡ is_constant (expression_of e.now)) }
{
    match stated_by(e) {
        None => Ok(false),
        Some(operand) => {
            let named = has_any_name(alloc, operand)?;
            Ok(!named)
        }
    }
}

/// Whether an operator is `!`.
fn is_negation(sign: Sign) -> bool
    ensures { result ≡ is_negation sign }
{
    matches!(sign, Sign::Not)
}

/// Whether an operator with two operands gives a truth value.
fn is_comparison(sign: Sign) -> bool
    ensures { result ≡ is_comparison sign }
{
    matches!(
        sign,
        Sign::Less
            | Sign::Greater
            | Sign::LessEqual
            | Sign::GreaterEqual
            | Sign::Equal
            | Sign::NotEqual
            | Sign::AndAnd
            | Sign::OrOr
    )
}

/// Whether the top operator of an expression gives a truth value.
fn is_test(e: &Expr<'_>) -> bool
    ensures { result ≡ is_test (expression_of e.now) }
{
    match &e.form {
        Form::Unary(sign, _) => is_negation(*sign),
        Form::Binary(sign, _, _) => is_comparison(*sign),
        _ => false,
    }
}

/// Whether a part is an assertion that isn't constant.
fn is_sound_assertion(alloc: Global, part: &Part<'_, '_>) -> Result<bool, AllocError>
    ensures { IfOk result (λ is. is ≡ is_sound_assertion (plain_part part.now)) }
{
    match part {
        Part::Expression(_, e) => is_sound(alloc, e),
        _ => Ok(false),
    }
}

/// Whether an expression is an assertion that isn't constant.
fn is_sound(alloc: Global, e: &Expr<'_>) -> Result<bool, AllocError>
    ensures { IfOk result (λ is. is ≡ is_sound_assertion (ExpressionPart false (expression_of e.now))) }
{
    if !is_assertion(e) {
        return Ok(false);
    }
    let constant = is_constant(alloc, e)?;
    Ok(!constant)
}

/// How many of the parts are assertions that aren't constant.
pub(crate) fn count_assertions(
    alloc: Global,
    parts: &Vec<Part<'_, '_>>,
) -> Result<usize, AllocError>
    ensures { IfOk result (λ count. count ≡ count_by is_sound_assertion (plain_parts parts.now)) }
{
    let mut count: usize = 0;
    for part in parts {
        if is_sound_assertion(alloc, part)? {
            count += 1;
        }
    }
    Ok(count)
}
