//! Parts of statements, and statements without further statements in them (C99 6.8).

ghost use Rattle.std.specs.Prelude.{◌≡◌, drop, Some, None, IfOk, OnOk};
ghost use Rattle.std.specs.Result.{IsErrOf};
ghost use Rattle.p10_syn.specs.declared.sign.Sign.TheVariants.{Semicolon};
ghost use Rattle.p10_syn.specs.Declaring.{after_statement};
ghost use Rattle.p10_syn.specs.Trees.{Bare, Statement, Break, Continue, Do};
ghost use Rattle.p10_syn.specs.Built.{bare_of, bare_optional_of};
ghost use Rattle.p10_syn.specs.BuiltStatements.{bare_statement_of};
ghost use Rattle.p10_pexpr.specs.declared.trouble.Trouble.TheVariants.{Refused};
ghost use Rattle.p10_pexpr.specs.Heads.{closed_by};
ghost use Rattle.p10_pexpr.specs.Reading.{readers, no_readers};
ghost use Rattle.p10_parse.specs.ExternalReading.{builders, no_builders};
ghost use Rattle.p10_parse.specs.StatementReading.{value_then as expression_then, optional_then as maybe_then, test_at, do_while_at, start_at, goto_at, return_at, evaluate_at};

use crate::declaration::declaration;
use crate::stopping::{stopped, stopped_after_two};
use p10_pexpr::expression::expression;
use p10_pexpr::{Cursor, Scope, Trouble, begins_specifiers};
use p10_syn::{Expr, Sign, Stmt};
use std::alloc::Global;

/// Reads the first part of a `for`: a declaration, an expression or nothing, with its `;`.
pub fn start<'s>(
    alloc: Global,
    budget: usize,
    scope: &mut Scope<'s>,
    cursor: &mut Cursor<'_, 's>,
) -> Result<Stmt<'s>, Trouble>
    ensures ok { IfOk result (λ t. start_at (readers budget) (builders budget) scope.old cursor.old ≡ Some (bare_statement_of t, cursor.new)) }
    ensures refused { IsErrOf result Refused → start_at (readers budget) (builders budget) scope.old cursor.old ≡ None }
    ensures scope { IfOk result (λ t. scope.new ≡ after_statement scope.old (bare_statement_of t)) }
{
    if begins_specifiers(scope, cursor) {
        let all = declaration(alloc, budget, scope, cursor)?;
        Ok(p10_make::declares(all))
    } else if cursor.heads(Sign::Semicolon) {
        cursor.advance();
        Ok(p10_make::empty())
    } else {
        let value = value_then(alloc, budget, scope, 1, Sign::Semicolon, cursor)?;
        Ok(p10_make::evaluate(value))
    }
}

/// Reads what stands after the body of a `do`.
pub fn do_while<'s>(
    alloc: Global,
    budget: usize,
    scope: &mut Scope<'s>,
    body: Stmt<'s>,
    cursor: &mut Cursor<'_, 's>,
) -> Result<Stmt<'s>, Trouble>
    ensures ok { IfOk result (λ t. do_while_at (readers budget) (builders budget) scope.old (bare_statement_of body.entry) cursor.old ≡ Some (bare_statement_of t, cursor.new)) }
    ensures refused { IsErrOf result Refused → do_while_at (readers budget) (builders budget) scope.old (bare_statement_of body.entry) cursor.old ≡ None }
    ensures scope { OnOk result (scope.new ≡ scope.old) }
{
    if let Err(trouble) = cursor.expect(Sign::While) {
        return stopped(body, trouble);
    }
    match test(alloc, budget, scope, cursor) {
        Ok(test) => done_while(alloc, body, test, cursor),
        Err(trouble) => stopped(body, trouble),
    }
}

/// Reads the `;` of a `do`.
fn done_while<'s>(
    alloc: Global,
    body: Stmt<'s>,
    test: Expr<'s>,
    cursor: &mut Cursor<'_, 's>,
) -> Result<Stmt<'s>, Trouble>
    ensures ok { IfOk result (λ t. closed_by {A = Statement Bare} Semicolon (Do tt tt (bare_statement_of body.entry) (bare_of test.entry)) cursor.old ≡ Some (bare_statement_of t, cursor.new)) }
    ensures refused { IsErrOf result Refused → closed_by {A = Statement Bare} Semicolon (Do tt tt (bare_statement_of body.entry) (bare_of test.entry)) cursor.old ≡ None }
{
    match cursor.expect(Sign::Semicolon) {
        Ok(()) => match p10_make::do_loop(alloc, body, test) {
            Ok(made) => Ok(made),
            Err(_) => Err(Trouble::Memory),
        },
        Err(trouble) => stopped_after_two(body, test, trouble),
    }
}

/// Reads a `goto`.
pub fn goto<'s>(cursor: &mut Cursor<'_, 's>) -> Result<Stmt<'s>, Trouble>
    ensures ok { IfOk result (λ t. goto_at no_readers no_builders (drop 1 cursor.old) ≡ Some (bare_statement_of t, cursor.new)) }
    ensures refused { IsErrOf result Refused → goto_at no_readers no_builders (drop 1 cursor.old) ≡ None }
{
    cursor.advance();
    let name = cursor.name()?;
    cursor.expect(Sign::Semicolon)?;
    Ok(p10_make::goto(name))
}

/// Reads a `break`.
pub fn leave<'s>(cursor: &mut Cursor<'_, 's>) -> Result<Stmt<'s>, Trouble>
    ensures ok { IfOk result (λ t. closed_by {A = Statement Bare} Semicolon (Break tt) (drop 1 cursor.old) ≡ Some (bare_statement_of t, cursor.new)) }
    ensures refused { IsErrOf result Refused → closed_by {A = Statement Bare} Semicolon (Break tt) (drop 1 cursor.old) ≡ None }
{
    cursor.advance();
    cursor.expect(Sign::Semicolon)?;
    Ok(p10_make::leave())
}

/// Reads a `continue`.
pub fn go_on<'s>(cursor: &mut Cursor<'_, 's>) -> Result<Stmt<'s>, Trouble>
    ensures ok { IfOk result (λ t. closed_by {A = Statement Bare} Semicolon (Continue tt) (drop 1 cursor.old) ≡ Some (bare_statement_of t, cursor.new)) }
    ensures refused { IsErrOf result Refused → closed_by {A = Statement Bare} Semicolon (Continue tt) (drop 1 cursor.old) ≡ None }
{
    cursor.advance();
    cursor.expect(Sign::Semicolon)?;
    Ok(p10_make::go_on())
}

/// Reads a `return`.
pub fn give_back<'s>(
    alloc: Global,
    budget: usize,
    scope: &mut Scope<'s>,
    cursor: &mut Cursor<'_, 's>,
) -> Result<Stmt<'s>, Trouble>
    ensures ok { IfOk result (λ t. return_at (readers budget) (builders budget) scope.old (drop 1 cursor.old) ≡ Some (bare_statement_of t, cursor.new)) }
    ensures refused { IsErrOf result Refused → return_at (readers budget) (builders budget) scope.old (drop 1 cursor.old) ≡ None }
    ensures scope { OnOk result (scope.new ≡ scope.old) }
{
    cursor.advance();
    let value = optional_then(alloc, budget, scope, Sign::Semicolon, cursor)?;
    Ok(p10_make::give_back(value))
}

/// Reads an expression and its `;`.
pub fn evaluate<'s>(
    alloc: Global,
    budget: usize,
    scope: &mut Scope<'s>,
    cursor: &mut Cursor<'_, 's>,
) -> Result<Stmt<'s>, Trouble>
    ensures ok { IfOk result (λ t. evaluate_at (readers budget) (builders budget) scope.old cursor.old ≡ Some (bare_statement_of t, cursor.new)) }
    ensures refused { IsErrOf result Refused → evaluate_at (readers budget) (builders budget) scope.old cursor.old ≡ None }
    ensures scope { OnOk result (scope.new ≡ scope.old) }
{
    let value = value_then(alloc, budget, scope, 1, Sign::Semicolon, cursor)?;
    Ok(p10_make::evaluate(value))
}

/// Reads an expression in parentheses.
pub fn test<'s>(
    alloc: Global,
    budget: usize,
    scope: &mut Scope<'s>,
    cursor: &mut Cursor<'_, 's>,
) -> Result<Expr<'s>, Trouble>
    ensures ok { IfOk result (λ t. test_at (readers budget) (builders budget) scope.old cursor.old ≡ Some (bare_of t, cursor.new)) }
    ensures refused { IsErrOf result Refused → test_at (readers budget) (builders budget) scope.old cursor.old ≡ None }
    ensures scope { OnOk result (scope.new ≡ scope.old) }
{
    cursor.expect(Sign::Open)?;
    value_then(alloc, budget, scope, 1, Sign::Close, cursor)
}

/// Reads an expression of this level at least, and the sign after it.
pub fn value_then<'s>(
    alloc: Global,
    budget: usize,
    scope: &mut Scope<'s>,
    level: u8,
    sign: Sign,
    cursor: &mut Cursor<'_, 's>,
) -> Result<Expr<'s>, Trouble>
    ensures ok { IfOk result (λ t. expression_then (readers budget) (builders budget) scope.old level sign cursor.old ≡ Some (bare_of t, cursor.new)) }
    ensures refused { IsErrOf result Refused → expression_then (readers budget) (builders budget) scope.old level sign cursor.old ≡ None }
    ensures scope { OnOk result (scope.new ≡ scope.old) }
{
    let value = expression(alloc, budget, scope, level, cursor)?;
    match cursor.expect(sign) {
        Ok(()) => Ok(value),
        Err(trouble) => stopped(value, trouble),
    }
}

/// Reads an expression that may be left out, and the sign after it.
pub fn optional_then<'s>(
    alloc: Global,
    budget: usize,
    scope: &mut Scope<'s>,
    sign: Sign,
    cursor: &mut Cursor<'_, 's>,
) -> Result<Option<Expr<'s>>, Trouble>
    ensures ok { IfOk result (λ t. maybe_then (readers budget) (builders budget) scope.old sign cursor.old ≡ Some (bare_optional_of t, cursor.new)) }
    ensures refused { IsErrOf result Refused → maybe_then (readers budget) (builders budget) scope.old sign cursor.old ≡ None }
    ensures scope { OnOk result (scope.new ≡ scope.old) }
{
    if cursor.heads(sign) {
        cursor.advance();
        Ok(None)
    } else {
        let value = value_then(alloc, budget, scope, 1, sign, cursor)?;
        Ok(Some(value))
    }
}
