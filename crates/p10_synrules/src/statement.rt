//! The parts of statements.

ghost use Rattle.std.specs.Prelude.{◌≡◌, ◌++◌, ◌∷◌, IfOk, map};
ghost use Rattle.p10_syn.specs.Trees.{statement_row};
ghost use Rattle.p10_syn.specs.BuiltStatements.{statement_of};
ghost use Rattle.p10_synrules.specs.Parts.{StatementPart, head_part, statement_parts, statements_parts};
ghost use Rattle.p10_synrules.specs.private.Views.{plain_parts};

use crate::declaration::put_declaration;
use crate::expression::{put_expression, put_optional};
use crate::part::{Part, push_one, put_name};
use p10_syn::Stmt;
use std::alloc::AllocError;

/// Puts down a statement and the parts within it.
#[cycle(stepping)]
fn put_statement<'t, 's>(s: &'t Stmt<'s>, into: &mut Vec<Part<'t, 's>>) -> Result<(), AllocError>
    ensures { IfOk result (λ done. plain_parts into.new ≡ plain_parts into.old ++ (StatementPart (statement_of s.now) ∷ statement_parts (statement_of s.now))) }
{
    push_one(into, Part::Statement(s))?;
    put_within(s, into)?;
    Ok(())
}

/// Puts down the first part of a `for`, which is a part of its own if it is a declaration, and the
/// parts within it.
#[cycle(stepping)]
fn put_head<'t, 's>(s: &'t Stmt<'s>, into: &mut Vec<Part<'t, 's>>) -> Result<(), AllocError>
    ensures { IfOk result (λ done. plain_parts into.new ≡ plain_parts into.old ++ (head_part (statement_of s.now) ++ statement_parts (statement_of s.now))) }
{
    put_head_part(s, into)?;
    put_within(s, into)?;
    Ok(())
}

/// Puts down a statement if it is a declaration.
fn put_head_part<'t, 's>(s: &'t Stmt<'s>, into: &mut Vec<Part<'t, 's>>) -> Result<(), AllocError>
    ensures { IfOk result (λ done. plain_parts into.new ≡ plain_parts into.old ++ head_part (statement_of s.now)) }
{
    match s {
        Stmt::Decl(_) => {
            push_one(into, Part::Statement(s))?;
            Ok(())
        }
        _ => Ok(()),
    }
}

/// Puts down the parts within a statement.
#[cycle(stepping)]
fn put_within<'t, 's>(s: &'t Stmt<'s>, into: &mut Vec<Part<'t, 's>>) -> Result<(), AllocError>
    ensures { IfOk result (λ done. plain_parts into.new ≡ plain_parts into.old ++ statement_parts (statement_of s.now)) }
{
    match s {
        Stmt::Empty(_) | Stmt::Break(_) | Stmt::Continue(_) | Stmt::Mark(_, _) => Ok(()),
        Stmt::Expr(_, e) => put_expression(e, false, into),
        Stmt::Block(_, all) => {
            put_statements(all, into)?;
            Ok(())
        }
        Stmt::If(_, e, s) => {
            put_expression(e, true, into)?;
            put_statement(s, into)?;
            Ok(())
        }
        Stmt::IfElse(_, e, s, t) => {
            put_expression(e, true, into)?;
            put_statement(s, into)?;
            put_statement(t, into)?;
            Ok(())
        }
        Stmt::Switch(_, _, e, s) | Stmt::While(_, _, e, s) | Stmt::Case(_, e, s) => {
            put_expression(e, false, into)?;
            put_statement(s, into)?;
            Ok(())
        }
        Stmt::Do(_, _, s, e) => {
            put_statement(s, into)?;
            put_expression(e, false, into)
        }
        Stmt::For(_, _, start, test, step, s) => {
            put_head(start, into)?;
            put_optional(test, into)?;
            put_optional(step, into)?;
            put_statement(s, into)?;
            Ok(())
        }
        Stmt::Default(_, s) => {
            put_statement(s, into)?;
            Ok(())
        }
        Stmt::Label(_, name, s) => {
            put_name(name, into)?;
            put_statement(s, into)?;
            Ok(())
        }
        Stmt::Goto(_, name) => put_name(name, into),
        Stmt::Return(_, _, e) => put_optional(e, into),
        Stmt::Decl(d) => put_declaration(d, into),
    }
}

/// Puts down the statements of a block, each with the parts within it.
#[cycle(stepping)]
pub(crate) fn put_statements<'t, 's>(
    all: &'t [Stmt<'s>],
    into: &mut Vec<Part<'t, 's>>,
) -> Result<(), AllocError>
    ensures { IfOk result (λ done. plain_parts into.new ≡ plain_parts into.old ++ statements_parts (statement_row (map statement_of all.now))) }
{
    for s in all {
        put_statement(s, into)?;
    }
    Ok(())
}
