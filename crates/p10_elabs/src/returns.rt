//! `return` (C99 6.8.6.4).

ghost use Rattle.std.specs.Prelude.{◌≡◌, IfOk, option_map};
ghost use Rattle.p10_core.specs.Types.{plain_type};
ghost use Rattle.p10_core.specs.Views.{plain_statement, plain_value};
ghost use Rattle.p10_syn.specs.Built.{expression_of};
ghost use Rattle.p10_syn.specs.BuiltStatements.{optional_expression};
ghost use Rattle.p10_elabx.specs.First.{only_first};
ghost use Rattle.p10_elabs.specs.FrameViews.{plain_frame};
ghost use Rattle.p10_elabs.specs.LocalViews.{plain_local, done_as};
ghost use Rattle.p10_elabs.specs.Statements.{return_done};
ghost use Rattle.p10_elabs.specs.private.Returning.{returned_value};

use crate::conditions::{noted_value, returned_found};
use crate::frame::Frame;
use crate::local::Local;
use p10_base::{At, SubsetCode};
use p10_core::{Stmt, Value};
use p10_elabd::expression_value;
use p10_syn::Expr;
use std::alloc::AllocError;

/// The value of a `return`.
fn returned_value<'s>(
    frame: &Frame<'_, 's>,
    local: &mut Local<'s>,
    at: At,
    e: &Expr<'s>,
) -> Result<Option<Value>, AllocError>
    ensures { IfOk result (λ made. done_as (option_map plain_value made) local.new ≡ returned_value only_first at (plain_type frame.now.result) (plain_local local.old) (expression_of e.now)) }
{
    let found = expression_value(frame.alloc, &mut local.standing, e)?;
    let value = returned_found(frame.alloc, at, &frame.result, found)?;
    Ok(noted_value(value, &mut local.standing))
}

/// `return`: a function with a result gives one.
pub(crate) fn return_done<'s>(
    frame: &Frame<'_, 's>,
    local: &mut Local<'s>,
    at: At,
    keyword: At,
    e: &Option<Expr<'s>>,
) -> Result<Option<Stmt>, AllocError>
    ensures { IfOk result (λ made. done_as (option_map plain_statement made) local.new ≡ return_done only_first (plain_frame frame.now) at keyword (optional_expression e.now) (plain_local local.old)) }
{
    match e {
        None => {
            if frame.result.is_void() {
                Ok(Some(Stmt::returns(at, keyword.span, None)))
            } else {
                local.refuse_where(true, SubsetCode::TypesDiffer, at);
                Ok(None)
            }
        }
        Some(e) => match returned_value(frame, local, at, e)? {
            None => Ok(None),
            Some(v) => Ok(Some(Stmt::returns(at, keyword.span, Some(v)))),
        },
    }
}
