//! Expressions where declarations and statements stand.

ghost use Rattle.std.specs.Prelude.{◌≡◌, IfOk, option_map};
ghost use Rattle.p10_syn.specs.Built.{expression_of};
ghost use Rattle.p10_core.specs.Views.{plain_value};
ghost use Rattle.p10_elabx.specs.First.{only_first, lift};
ghost use Rattle.p10_elabx.specs.Built.{ruled_value};
ghost use Rattle.p10_elabd.specs.Standing.{noted};
ghost use Rattle.p10_elabd.specs.Expressions.{for_expression, value_found, value_by, constant_number};
ghost use Rattle.p10_elabd.specs.Views.{plain_standing, told, ruled_declared, plain_declared};

use crate::declaration::Declared;
use crate::standing::Standing;
use crate::static_values::constant_number;
use crate::tags::add_tags;
use p10_core::Value;
use p10_elabx::{Problem, judge_value};
use p10_syn::Expr;
use std::alloc::{AllocError, Global};

/// Declares the structures that type names in an expression are the first to name.
pub fn declare_tags<'s>(standing: &mut Standing<'s>, e: &Expr<'s>) -> Result<(), AllocError>
    ensures { IfOk result (λ _. plain_standing standing.new ≡ for_expression (plain_standing standing.old) (expression_of e.now)) }
{
    add_tags(&mut standing.scope, e)?;
    Ok(())
}

/// What is found in the expression `e` where a value is needed: the value, or the first row that holds, or neither; no row is noted. What the
/// expression's type names declare stands from then on.
///
/// # Errors
///
/// Out of memory.
pub fn expression_value<'s>(
    alloc: Global,
    standing: &mut Standing<'s>,
    e: &Expr<'s>,
) -> Result<Result<Value, Option<Problem>>, AllocError>
    ensures found { IfOk result (λ r. lift (ruled_value r) ≡ value_found only_first (plain_standing standing.old) (expression_of e.now)) }
    ensures after { IfOk result (λ _. plain_standing standing.new ≡ for_expression (plain_standing standing.old) (expression_of e.now)) }
{
    declare_tags(standing, e)?;
    standing.scope.types.are_whole();
    let judged = judge_value(alloc, &standing.scope, e)?;
    Ok(judged.found)
}

/// What is found, where a problem is noted.
pub fn noted<T: Drop>(standing: &mut Standing<'_>, found: Result<T, Option<Problem>>) -> Option<T>
    ensures { told result standing.new ≡ noted only_first (lift found) (plain_standing standing.old) }
{
    match found {
        Ok(made) => Some(made),
        Err(problem) => {
            standing.note(problem);
            None
        }
    }
}

/// The number that the integer constant expression `e` gives (C99 6.6p6); `None` where it is refused, and a row that holds is noted.
///
/// # Errors
///
/// Out of memory.
pub fn constant_value<'s>(
    alloc: Global,
    standing: &mut Standing<'s>,
    e: &Expr<'s>,
) -> Result<Option<i128>, AllocError>
    ensures { IfOk result (λ made. told made standing.new ≡ value_by only_first (plain_standing standing.old) (expression_of e.now) constant_number) }
{
    match expression_value(alloc, standing, e)? {
        Ok(v) => Ok(noted(standing, constant_number(&v))),
        Err(problem) => {
            standing.note(problem);
            Ok(None)
        }
    }
}
