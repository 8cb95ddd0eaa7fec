//! Labels before an item of the block of a `switch` (C99 6.8.1, 6.8.4.2).

ghost use Rattle.std.specs.Prelude.{◌≡◌, IfOk, option_map};
ghost use Rattle.p10_core.specs.Constants.{IsSmall};
ghost use Rattle.p10_core.specs.Views.{plain_value};
ghost use Rattle.p10_syn.specs.Built.{expression_of};
ghost use Rattle.p10_syn.specs.BuiltStatements.{statement_of};
ghost use Rattle.p10_elabx.specs.Built.{ruled_value};
ghost use Rattle.p10_elabx.specs.First.{only_first, lift, on};
ghost use Rattle.p10_elabs.specs.LocalViews.{plain_local, done_as, plain_labelled};
ghost use Rattle.p10_elabs.specs.Statements.{number_for, case_value, case_done, labels_noted};
ghost use Rattle.p10_elabs.specs.private.Cases.{case_number};

use crate::labels::{Labelled, case_noted, default_done};
use crate::local::Local;
use p10_base::At;
use p10_core::{Value, integer_of};
use p10_elabd::{constant_number, expression_value, noted};
use p10_elabx::Problem;
use p10_int::convert;
use p10_syn::{Expr, Stmt};
use std::alloc::{AllocError, Global};

/// A number in the type of the `switch`, where that is known (C99 6.8.4.2p5).
fn number_for(
    switched: &Option<Value>,
    found: Result<i128, Option<Problem>>,
) -> Result<i128, Option<Problem>>
    requires { IfOk found IsSmall }
    ensures { result ≡ number_for (option_map plain_value switched.now) found }
{
    match switched {
        None => found,
        Some(value) => match found {
            Ok(number) => Ok(convert(integer_of(&value.ty), number)),
            Err(problem) => Err(problem),
        },
    }
}

/// The value of a `case`, which may be refused.
fn case_found(
    switched: &Option<Value>,
    found: Result<Value, Option<Problem>>,
) -> Result<i128, Option<Problem>>
    ensures { lift result ≡ on (lift (ruled_value found)) (case_value (option_map plain_value switched.now)) }
{
    match found {
        Ok(v) => number_for(switched, constant_number(&v)),
        Err(problem) => Err(problem),
    }
}

/// The number of a `case`.
fn case_number<'s>(
    alloc: Global,
    local: &mut Local<'s>,
    switched: &Option<Value>,
    e: &Expr<'s>,
) -> Result<Option<i128>, AllocError>
    ensures { IfOk result (λ made. done_as made local.new ≡ case_number only_first (option_map plain_value switched.now) (plain_local local.old) (expression_of e.now)) }
{
    let found = expression_value(alloc, &mut local.standing, e)?;
    let number = case_found(switched, found);
    Ok(noted(&mut local.standing, number))
}

/// A `case` before the item with a number.
fn case_done<'s>(
    alloc: Global,
    local: &mut Local<'s>,
    site: (At, u32),
    switched: &Option<Value>,
    labels: Labelled,
    e: &Expr<'s>,
) -> Result<Labelled, AllocError>
    ensures { IfOk result (λ k. plain_labelled k (plain_local local.new) ≡ case_done only_first site.0 site.1 (option_map plain_value switched.now) (plain_labelled labels (plain_local local.old)) (expression_of e.now)) }
{
    let (at, place) = site;
    let number = case_number(alloc, local, switched, e)?;
    let labels = case_noted(local, at, place, labels, number)?;
    Ok(labels)
}

/// The labels that stand before an item; those of a label are its own.
pub(crate) fn labels_noted<'s>(
    s: &Stmt<'s>,
    alloc: Global,
    local: &mut Local<'s>,
    place: u32,
    switched: &Option<Value>,
    labels: Labelled,
) -> Result<Labelled, AllocError>
    ensures { IfOk result (λ k. plain_labelled k (plain_local local.new) ≡ labels_noted only_first place (option_map plain_value switched.now) (plain_labelled labels (plain_local local.old)) (statement_of s.now)) }
{
    match s {
        Stmt::Case(at, e, inner) => {
            let labels = case_done(alloc, local, (*at, place), switched, labels, e)?;
            let labels = labels_noted(inner, alloc, local, place, switched, labels)?;
            Ok(labels)
        }
        Stmt::Default(at, inner) => {
            let labels = default_done(local, *at, place, labels);
            let labels = labels_noted(inner, alloc, local, place, switched, labels)?;
            Ok(labels)
        }
        Stmt::Empty(_)
        | Stmt::Expr(_, _)
        | Stmt::Block(_, _)
        | Stmt::If(_, _, _)
        | Stmt::IfElse(_, _, _, _)
        | Stmt::Switch(_, _, _, _)
        | Stmt::While(_, _, _, _)
        | Stmt::Do(_, _, _, _)
        | Stmt::For(_, _, _, _, _, _)
        | Stmt::Label(_, _, _)
        | Stmt::Goto(_, _)
        | Stmt::Break(_)
        | Stmt::Continue(_)
        | Stmt::Return(_, _, _)
        | Stmt::Decl(_)
        | Stmt::Mark(_, _) => Ok(labels),
    }
}
