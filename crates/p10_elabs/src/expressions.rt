//! Expressions that statements ask for a value of (C99 6.8.1, 6.8.4, 6.8.5, 6.8.6.4).

ghost use Rattle.std.specs.Prelude.{◌≡◌, IfOk, option_map};
ghost use Rattle.p10_core.specs.Views.{plain_value};
ghost use Rattle.p10_syn.specs.Built.{expression_of};
ghost use Rattle.p10_syn.specs.BuiltStatements.{optional_expression};
ghost use Rattle.p10_elabx.specs.First.{only_first};
ghost use Rattle.p10_elabs.specs.Expressions.{test_done, optional_test, switch_done};
ghost use Rattle.p10_elabs.specs.Statements.{constant_done};
ghost use Rattle.p10_elabs.specs.LocalViews.{plain_local, done_as};

use crate::conditions::{noted_value, switched_found, tested_found};
use crate::local::Local;
use crate::round::Round;
use p10_core::Value;
use p10_elabd::{constant_value, expression_value};
use p10_syn::Expr;
use std::alloc::{AllocError, Global};

/// A condition.
pub(crate) fn test_done<'s>(
    alloc: Global,
    local: &mut Local<'s>,
    e: &Expr<'s>,
) -> Result<Option<Value>, AllocError>
    ensures { IfOk result (λ made. done_as (option_map plain_value made) local.new ≡ test_done only_first (plain_local local.old) (expression_of e.now)) }
{
    let found = expression_value(alloc, &mut local.standing, e)?;
    Ok(noted_value(tested_found(found), &mut local.standing))
}

/// A condition that may be left out.
pub(crate) fn optional_test<'s>(
    alloc: Global,
    local: &mut Local<'s>,
    e: &Option<Expr<'s>>,
) -> Result<Option<Option<Value>>, AllocError>
    ensures { IfOk result (λ made. done_as (option_map (option_map plain_value) made) local.new ≡ optional_test only_first (plain_local local.old) (optional_expression e.now)) }
{
    match e {
        None => Ok(Some(None)),
        Some(e) => match test_done(alloc, local, e)? {
            None => Ok(None),
            Some(v) => Ok(Some(Some(v))),
        },
    }
}

/// The value of a `switch`.
pub(crate) fn switch_done<'s>(
    alloc: Global,
    local: &mut Local<'s>,
    e: &Expr<'s>,
) -> Result<Option<Value>, AllocError>
    ensures { IfOk result (λ made. done_as (option_map plain_value made) local.new ≡ switch_done only_first (plain_local local.old) (expression_of e.now)) }
{
    let found = expression_value(alloc, &mut local.standing, e)?;
    let value = switched_found(alloc, found)?;
    Ok(noted_value(value, &mut local.standing))
}

/// The constant of a `case`: at the top level of the block of a `switch` it is judged with the labels.
pub(crate) fn constant_done<'s>(
    alloc: Global,
    local: &mut Local<'s>,
    round: Round,
    e: &Expr<'s>,
) -> Result<(), AllocError>
    ensures { IfOk result (λ _. plain_local local.new ≡ constant_done only_first round (plain_local local.old) (expression_of e.now)) }
{
    if round.at_labels {
        return Ok(());
    }
    constant_value(alloc, &mut local.standing, e)?;
    Ok(())
}
