//! Expressions as statements, and the clauses of a `for` (C99 6.8.3, 6.8.5.3).

ghost use Rattle.std.specs.Prelude.{◌≡◌, IfOk, map, option_map};
ghost use Rattle.p10_core.specs.Views.{plain_statement};
ghost use Rattle.p10_syn.specs.Trees.{expression_row};
ghost use Rattle.p10_syn.specs.Built.{expression_of};
ghost use Rattle.p10_syn.specs.BuiltStatements.{optional_expression};
ghost use Rattle.p10_elabx.specs.First.{only_first};
ghost use Rattle.p10_elabs.specs.Expressions.{expression_statement, piece_done, pieces_done, clause_done, optional_clause};
ghost use Rattle.p10_elabs.specs.LocalViews.{plain_local, plain_items, done_as};
ghost use Rattle.p10_elabs.specs.private.Clauses.{no_pieces, one_piece, by_parens, clause_by};

use crate::forms::{form_found, noted_form, statement_with};
use crate::local::Local;
use crate::pieces::statement_added;
use p10_base::At;
use p10_core::Stmt;
use p10_elabd::declare_tags;
use p10_syn::{Expr, Form};
use std::alloc::{AllocError, Global};

/// An expression as a statement at a tree.
pub(crate) fn expression_statement<'s>(
    alloc: Global,
    local: &mut Local<'s>,
    at: At,
    e: &Expr<'s>,
) -> Result<Option<Stmt>, AllocError>
    ensures { IfOk result (λ made. done_as (option_map plain_statement made) local.new ≡ expression_statement only_first (plain_local local.old) at (expression_of e.now)) }
{
    declare_tags(&mut local.standing, e)?;
    local.standing.scope.types.are_whole();
    let found = form_found(alloc, &local.standing.scope, e)?;
    let form = noted_form(found, &mut local.standing);
    Ok(statement_with(at, form))
}

/// A piece of a clause after those before.
fn piece_done<'s>(
    alloc: Global,
    local: &mut Local<'s>,
    before: Option<Vec<Stmt>>,
    e: &Expr<'s>,
) -> Result<Option<Vec<Stmt>>, AllocError>
    ensures { IfOk result (λ made. done_as (plain_items made) local.new ≡ piece_done only_first (done_as (plain_items before) local.old) (expression_of e.now)) }
{
    let one = expression_statement(alloc, local, e.at, e)?;
    let made = statement_added(before, one)?;
    Ok(made)
}

/// The pieces of a clause are statements of their own, each at its expression.
fn pieces_done<'s>(
    alloc: Global,
    local: &mut Local<'s>,
    all: &[Expr<'s>],
) -> Result<Option<Vec<Stmt>>, AllocError>
    ensures { IfOk result (λ made. done_as (plain_items made) local.new ≡ pieces_done only_first (no_pieces (plain_local local.old)) (expression_row (map expression_of all.now))) }
{
    let mut made = Some(Vec::new(alloc));
    for e in all {
        made = piece_done(alloc, local, made, e)?;
    }
    Ok(made)
}

/// An expression that is the only piece of a clause.
#[tactic(auto, unfolding(crate::specs::private::Clauses::one_piece))]
fn one_piece<'s>(
    alloc: Global,
    local: &mut Local<'s>,
    e: &Expr<'s>,
) -> Result<Option<Vec<Stmt>>, AllocError>
    ensures { IfOk result (λ made. done_as (plain_items made) local.new ≡ one_piece only_first (plain_local local.old) (expression_of e.now)) }
{
    let none = Some(Vec::new(alloc));
    let made = piece_done(alloc, local, none, e)?;
    Ok(made)
}

/// Operands with commas between them: they are pieces where they aren't in parentheses.
fn comma_done<'s>(
    alloc: Global,
    local: &mut Local<'s>,
    e: &Expr<'s>,
    all: &[Expr<'s>],
) -> Result<Option<Vec<Stmt>>, AllocError>
    ensures { IfOk result (λ made. done_as (plain_items made) local.new ≡ by_parens e.now.parens (pieces_done only_first (no_pieces (plain_local local.old)) (expression_row (map expression_of all.now))) (one_piece only_first (plain_local local.old) (expression_of e.now))) }
{
    let parens = e.parens;
    if parens == 0 {
        let pieces = pieces_done(alloc, local, all)?;
        return Ok(pieces);
    }
    let one = one_piece(alloc, local, e)?;
    Ok(one)
}

/// A clause by its form.
fn clause_by<'s>(
    alloc: Global,
    local: &mut Local<'s>,
    e: &Expr<'s>,
) -> Result<Option<Vec<Stmt>>, AllocError>
    ensures { IfOk result (λ made. done_as (plain_items made) local.new ≡ clause_by only_first (plain_local local.old) (expression_of e.now)) }
{
    match &e.form {
        Form::Comma(all) => {
            let made = comma_done(alloc, local, e, all)?;
            Ok(made)
        }
        _ => {
            let made = one_piece(alloc, local, e)?;
            Ok(made)
        }
    }
}

/// The first or third clause of a `for`: the operands of a comma that isn't in parentheses are its pieces.
pub(crate) fn clause_done<'s>(
    alloc: Global,
    local: &mut Local<'s>,
    e: &Expr<'s>,
) -> Result<Option<Vec<Stmt>>, AllocError>
    ensures { IfOk result (λ made. done_as (plain_items made) local.new ≡ clause_done only_first (plain_local local.old) (expression_of e.now)) }
{
    let made = clause_by(alloc, local, e)?;
    Ok(made)
}

/// A clause that may be left out.
pub(crate) fn optional_clause<'s>(
    alloc: Global,
    local: &mut Local<'s>,
    e: &Option<Expr<'s>>,
) -> Result<Option<Vec<Stmt>>, AllocError>
    ensures { IfOk result (λ made. done_as (plain_items made) local.new ≡ optional_clause only_first (plain_local local.old) (optional_expression e.now)) }
{
    match e {
        None => Ok(Some(Vec::new(alloc))),
        Some(e) => {
            let made = clause_done(alloc, local, e)?;
            Ok(made)
        }
    }
}
