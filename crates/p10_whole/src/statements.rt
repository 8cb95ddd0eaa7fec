//! Whether statements are whole (C99 6.8). A scope holds the numbers of the variables that are in scope besides the
//! parameters; where a test is true, it holds after a statement what it held before, and the variable that the statement
//! declares.

ghost use Rattle.std.specs.Prelude.{IfOk, option_map};
ghost use Rattle.p10_base.specs.declared.span.Span.{Span};
ghost use Rattle.p10_core.specs.Typed.{block, switch};
ghost use Rattle.p10_core.specs.Views.{plain_statement, plain_statements, plain_value, plain_labels};
ghost use Rattle.p10_whole.specs.private.Regions.{PassesForm, PassesStatement, PassesStatements, PassesPart, PassesBranch};
ghost use Rattle.p10_whole.specs.private.Shows.{Shows};

use crate::clauses::{are_clauses, is_declaration};
use crate::context::Context;
use crate::simple::{declares, is_simple, maybe_tests, selects, tests};
use p10_core::{Labels, Stmt, StmtForm, Value};
use std::alloc::AllocError;

/// Whether statements are whole, one after the other: each sees what those before it declare.
#[cycle(statements)]
pub(crate) fn are_whole_statements(
    context: &Context<'_, '_>,
    scope: &mut Vec<u32>,
    all: &[Stmt],
) -> Result<bool, AllocError>
    ensures { IfOk result (λ b. Shows b (PassesStatements context.now scope.old.items (plain_statements all.now) scope.new.items)) }
{
    for s in all {
        let whole = is_whole_statement(context, scope, s)?;
        if !whole {
            return Ok(false);
        }
    }
    Ok(true)
}

/// Whether a statement is whole.
#[cycle(statements)]
fn is_whole_statement(
    context: &Context<'_, '_>,
    scope: &mut Vec<u32>,
    s: &Stmt,
) -> Result<bool, AllocError>
    ensures { IfOk result (λ b. Shows b (PassesStatement context.now scope.old.items (plain_statement s.now) scope.new.items)) }
{
    match &s.form {
        StmtForm::Declare(number, initial) => declares(context, scope, *number, initial),
        StmtForm::Block(all) => is_whole_block(context, scope, all.as_slice()),
        StmtForm::If(_, _, _) => is_whole_if(context, scope, s),
        StmtForm::Loop(_, _, _, _, _) => is_whole_loop(context, scope, s),
        StmtForm::Switch(_, value, labels, body) => {
            is_whole_switch(context, scope, body, value, labels)
        }
        _ => Ok(is_simple(context, scope.as_slice(), &s.form)),
    }
}

/// Whether a statement that is a part of another one is whole: it is no declaration.
#[cycle(statements)]
fn is_whole_part(
    context: &Context<'_, '_>,
    scope: &mut Vec<u32>,
    s: &Stmt,
) -> Result<bool, AllocError>
    ensures { IfOk result (λ b. Shows b (PassesPart context.now scope.old.items (plain_statement s.now) scope.new.items)) }
{
    if is_declaration(s) {
        return Ok(false);
    }
    is_whole_statement(context, scope, s)
}

/// Whether a block is whole, whose variables are in scope up to its end.
#[cycle(statements)]
fn is_whole_block(
    context: &Context<'_, '_>,
    scope: &mut Vec<u32>,
    all: &[Stmt],
) -> Result<bool, AllocError>
    ensures { IfOk result (λ b. Shows b (PassesForm context.now scope.old.items (block (plain_statements all.now)) scope.new.items)) }
{
    let count = scope.len();
    let whole = are_whole_statements(context, scope, all)?;
    scope.truncate(count);
    Ok(whole)
}

/// Whether a statement is an `if` that is whole.
#[cycle(statements)]
fn is_whole_if(
    context: &Context<'_, '_>,
    scope: &mut Vec<u32>,
    s: &Stmt,
) -> Result<bool, AllocError>
    ensures { IfOk result (λ b. Shows b (PassesStatement context.now scope.old.items (plain_statement s.now) scope.new.items)) }
{
    match &s.form {
        StmtForm::If(test, then, other) => {
            let tested = tests(context, scope.as_slice(), test);
            let first = is_whole_part(context, scope, then)?;
            let second = is_whole_other(context, scope, other)?;
            Ok(tested & (first & second))
        }
        _ => Ok(false),
    }
}

/// Whether the second branch of an `if` is whole, if there is one.
#[cycle(statements)]
fn is_whole_other(
    context: &Context<'_, '_>,
    scope: &mut Vec<u32>,
    other: &Option<Box<Stmt>>,
) -> Result<bool, AllocError>
    ensures { IfOk result (λ b. Shows b (PassesBranch context.now scope.old.items (option_map (λ x. plain_statement x.value) other.now) scope.new.items)) }
{
    match other {
        Some(other) => is_whole_part(context, scope, other),
        None => Ok(true),
    }
}

/// Whether a statement is a loop that is whole. The variables of its first clause are in scope up to its end.
#[cycle(statements)]
fn is_whole_loop(
    context: &Context<'_, '_>,
    scope: &mut Vec<u32>,
    s: &Stmt,
) -> Result<bool, AllocError>
    ensures { IfOk result (λ b. Shows b (PassesStatement context.now scope.old.items (plain_statement s.now) scope.new.items)) }
{
    match &s.form {
        StmtForm::Loop(head, first, test, third, body) => {
            let first = first.as_slice();
            let third = third.as_slice();
            let outer = scope.len();
            if !are_clauses(head.keyword, first, test, third) {
                return Ok(false);
            }
            let opened = are_whole_statements(context, scope, first)?;
            let tested = maybe_tests(context, scope.as_slice(), test);
            let stepped = is_whole_block(context, scope, third)?;
            let whole = is_whole_part(&context.in_loop(), scope, body)?;
            scope.truncate(outer);
            Ok((opened & tested) & (stepped & whole))
        }
        _ => Ok(false),
    }
}

/// Whether a `switch` is whole.
#[cycle(statements)]
fn is_whole_switch(
    context: &Context<'_, '_>,
    scope: &mut Vec<u32>,
    body: &Stmt,
    value: &Value,
    labels: &Labels,
) -> Result<bool, AllocError>
    ensures { IfOk result (λ b. (span : Span) → Shows b (PassesForm context.now scope.old.items (switch span (plain_value value.now) (plain_labels labels.now) (plain_statement body.now)) scope.new.items)) }
{
    let alloc = *scope.allocator();
    let selected = selects(alloc, context, scope.as_slice(), value, labels, body)?;
    if !selected {
        return Ok(false);
    }
    is_whole_part(&context.in_switch(), scope, body)
}
