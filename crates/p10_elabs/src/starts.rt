//! Declarations where statements stand, and what stands in the parentheses of a `for` (C99 6.8.5.3).

ghost use Rattle.std.specs.Prelude.{◌≡◌, IfOk, option_map};
ghost use Rattle.p10_core.specs.Views.{plain_statement};
ghost use Rattle.p10_syn.specs.BuiltStatements.{optional_expression, declaration_of, statement_of};
ghost use Rattle.p10_elabx.specs.First.{only_first};
ghost use Rattle.p10_elabs.specs.FrameViews.{plain_frame};
ghost use Rattle.p10_elabs.specs.LocalViews.{plain_local, plain_items, done_as};
ghost use Rattle.p10_elabs.specs.Statements.{is_empty, is_absent, for_kind, start_done, declared_at_labels};
ghost use Rattle.p10_elabs.specs.private.Steps.{clauses_done, declared_start};
ghost use Rattle.p10_elabs.specs.private.StepViews.{clauses_as};

use crate::clauses::{clause_done, optional_clause};
use crate::declarations::declared_into;
use crate::expressions::optional_test;
use crate::frame::Frame;
use crate::items::no_items;
use crate::kind::Kind;
use crate::local::Local;
use crate::pieces::FoundClauses;
use p10_base::SubsetCode;
use p10_core::Stmt as Typed;
use p10_elabd::Site;
use p10_syn::{Decl, Expr, Stmt};
use std::alloc::AllocError;

/// Whether nothing is written before the `;`.
fn is_empty(s: &Stmt<'_>) -> bool
    ensures { result ≡ is_empty (statement_of s.now) }
{
    match s {
        Stmt::Empty(_) => true,
        Stmt::Expr(_, _)
        | Stmt::Block(_, _)
        | Stmt::If(_, _, _)
        | Stmt::IfElse(_, _, _, _)
        | Stmt::Switch(_, _, _, _)
        | Stmt::While(_, _, _, _)
        | Stmt::Do(_, _, _, _)
        | Stmt::For(_, _, _, _, _, _)
        | Stmt::Case(_, _, _)
        | Stmt::Default(_, _)
        | Stmt::Label(_, _, _)
        | Stmt::Goto(_, _)
        | Stmt::Break(_)
        | Stmt::Continue(_)
        | Stmt::Return(_, _, _)
        | Stmt::Decl(_)
        | Stmt::Mark(_, _) => false,
    }
}

/// Whether an expression is left out.
fn is_absent(e: &Option<Expr<'_>>) -> bool
    ensures { result ≡ is_absent (optional_expression e.now) }
{
    match e {
        None => true,
        Some(_) => false,
    }
}

/// What a `for` is by what stands in its parentheses: with nothing in them it may be the task loop.
pub(crate) fn for_kind(start: &Stmt<'_>, test: &Option<Expr<'_>>, step: &Option<Expr<'_>>) -> Kind
    ensures { result ≡ for_kind (statement_of start.now) (optional_expression test.now) (optional_expression step.now) }
{
    if is_empty(start) && (is_absent(test) && is_absent(step)) {
        Kind::Task
    } else {
        Kind::Other
    }
}

/// The declarations that begin a `for`.
fn declared_start<'s>(
    frame: &Frame<'_, 's>,
    local: &mut Local<'s>,
    d: &Decl<'s>,
) -> Result<Option<Vec<Typed>>, AllocError>
    ensures { IfOk result (λ made. done_as (plain_items made) local.new ≡ declared_start only_first (plain_frame frame.now) (plain_local local.old) (declaration_of d.now)) }
{
    let all = declared_into(d, frame, Site::InFor, local, no_items(frame.alloc))?;
    Ok(all.made)
}

/// The first clause of a `for`: declarations, or expressions.
fn start_done<'s>(
    frame: &Frame<'_, 's>,
    local: &mut Local<'s>,
    start: &Stmt<'s>,
) -> Result<Option<Vec<Typed>>, AllocError>
    ensures { IfOk result (λ made. done_as (plain_items made) local.new ≡ start_done only_first (plain_frame frame.now) (plain_local local.old) (statement_of start.now)) }
{
    match start {
        Stmt::Decl(d) => {
            let made = declared_start(frame, local, d)?;
            Ok(made)
        }
        Stmt::Expr(_, e) => {
            let made = clause_done(frame.alloc, local, e)?;
            Ok(made)
        }
        Stmt::Empty(_)
        | Stmt::Block(_, _)
        | Stmt::If(_, _, _)
        | Stmt::IfElse(_, _, _, _)
        | Stmt::Switch(_, _, _, _)
        | Stmt::While(_, _, _, _)
        | Stmt::Do(_, _, _, _)
        | Stmt::For(_, _, _, _, _, _)
        | Stmt::Case(_, _, _)
        | Stmt::Default(_, _)
        | Stmt::Label(_, _, _)
        | Stmt::Goto(_, _)
        | Stmt::Break(_)
        | Stmt::Continue(_)
        | Stmt::Return(_, _, _)
        | Stmt::Mark(_, _) => Ok(Some(Vec::new(frame.alloc))),
    }
}

/// The clauses of a `for`, in order.
pub(crate) fn clauses_done<'s>(
    frame: &Frame<'_, 's>,
    local: &mut Local<'s>,
    start: &Stmt<'s>,
    test: &Option<Expr<'s>>,
    step: &Option<Expr<'s>>,
) -> Result<FoundClauses, AllocError>
    ensures { IfOk result (λ c. clauses_as c (plain_local local.new) ≡ clauses_done only_first (plain_frame frame.now) (plain_local local.old) (statement_of start.now) (optional_expression test.now) (optional_expression step.now)) }
{
    let first = start_done(frame, local, start)?;
    let test = optional_test(frame.alloc, local, test)?;
    let third = optional_clause(frame.alloc, local, step)?;
    Ok((first, test, third))
}

/// A declaration where labels may stand: nothing is declared there.
pub(crate) fn declared_at_labels<'s>(
    frame: &Frame<'_, 's>,
    local: &mut Local<'s>,
    d: &Decl<'s>,
) -> Result<Option<Typed>, AllocError>
    ensures { IfOk result (λ made. done_as (option_map plain_statement made) local.new ≡ declared_at_labels only_first (plain_frame frame.now) (plain_local local.old) (declaration_of d.now)) }
{
    declared_into(d, frame, Site::InBlock, local, no_items(frame.alloc))?;
    local.refuse_where(true, SubsetCode::BadJump, d.at);
    Ok(None)
}
