//! The parts of expressions.

ghost use Rattle.std.specs.Prelude.{◌≡◌, ◌++◌, IfOk, map, false};
ghost use Rattle.p10_syn.specs.Trees.{expression_row};
ghost use Rattle.p10_syn.specs.Built.{expression_of, form_of, kind_of};
ghost use Rattle.p10_syn.specs.BuiltStatements.{optional_expression};
ghost use Rattle.p10_synrules.specs.Parts.{expression_parts, form_parts, list_parts, optional_parts, type_parts};
ghost use Rattle.p10_synrules.specs.private.Views.{plain_parts, boxed_of};

use crate::declarator::put_declared;
use crate::part::{Part, push_one, put_name};
use crate::specifier::put_specifiers;
use p10_syn::{Expr, Form, TypeName};
use std::alloc::AllocError;

/// Puts down the parts of an expression, the whole one first.
#[cycle(walking)]
pub(crate) fn put_expression<'t, 's>(
    e: &'t Expr<'s>,
    within: bool,
    into: &mut Vec<Part<'t, 's>>,
) -> Result<(), AllocError>
    ensures { IfOk result (λ done. plain_parts into.new ≡ plain_parts into.old ++ expression_parts within (expression_of e.now)) }
{
    push_one(into, Part::Expression(within, e))?;
    put_form(&e.form, within, into)?;
    Ok(())
}

/// Puts down the parts of an expression's operands and its names.
#[cycle(walking)]
fn put_form<'t, 's>(
    form: &'t Form<'s>,
    within: bool,
    into: &mut Vec<Part<'t, 's>>,
) -> Result<(), AllocError>
    ensures { IfOk result (λ done. plain_parts into.new ≡ plain_parts into.old ++ form_parts within (form_of form.now)) }
{
    match form {
        Form::Number(_) | Form::Char(_) | Form::Str(_) => Ok(()),
        Form::Name(name) => put_name(name, into),
        Form::Unary(_, a) | Form::Step(_, _, a) | Form::SizeofExpr(a) => {
            put_expression(a, within, into)?;
            Ok(())
        }
        Form::Binary(_, a, b) | Form::Assign(_, a, b) | Form::Index(a, b) => {
            put_expression(a, within, into)?;
            put_expression(b, within, into)?;
            Ok(())
        }
        Form::Cond(c, a, b) => {
            put_expression(c, within, into)?;
            put_expression(a, within, into)?;
            put_expression(b, within, into)?;
            Ok(())
        }
        Form::Call(f, all) => {
            put_expression(f, within, into)?;
            put_list(all, within, into)?;
            Ok(())
        }
        Form::Member(a, name) | Form::Arrow(a, name) => {
            put_expression(a, within, into)?;
            put_name(name, into)
        }
        Form::Cast(kind, a) => {
            put_type(kind, within, into)?;
            put_expression(a, within, into)?;
            Ok(())
        }
        Form::SizeofType(kind) => {
            put_type(kind, within, into)?;
            Ok(())
        }
        Form::Comma(all) => {
            put_list(all, within, into)?;
            Ok(())
        }
    }
}

/// Puts down the parts of expressions in a row.
#[cycle(walking)]
fn put_list<'t, 's>(
    all: &'t [Expr<'s>],
    within: bool,
    into: &mut Vec<Part<'t, 's>>,
) -> Result<(), AllocError>
    ensures { IfOk result (λ done. plain_parts into.new ≡ plain_parts into.old ++ list_parts within (expression_row (map expression_of all.now))) }
{
    for e in all {
        put_expression(e, within, into)?;
    }
    Ok(())
}

/// Puts down the parts of an expression in a box, which may be left out.
#[cycle(walking)]
pub(crate) fn put_boxed<'t, 's>(
    e: &'t Option<Box<Expr<'s>>>,
    within: bool,
    into: &mut Vec<Part<'t, 's>>,
) -> Result<(), AllocError>
    ensures { IfOk result (λ done. plain_parts into.new ≡ plain_parts into.old ++ optional_parts within (boxed_of e.now)) }
{
    match e {
        None => Ok(()),
        Some(e) => {
            put_expression(e, within, into)?;
            Ok(())
        }
    }
}

/// Puts down the parts of the name of a type.
#[cycle(walking)]
fn put_type<'t, 's>(
    kind: &'t TypeName<'s>,
    within: bool,
    into: &mut Vec<Part<'t, 's>>,
) -> Result<(), AllocError>
    ensures { IfOk result (λ done. plain_parts into.new ≡ plain_parts into.old ++ type_parts within (kind_of kind.now)) }
{
    put_specifiers(&kind.specs, within, into)?;
    put_declared(&kind.declarator, false, within, into)?;
    Ok(())
}

/// Puts down the parts of an expression that may be left out.
pub(crate) fn put_optional<'t, 's>(
    e: &'t Option<Expr<'s>>,
    into: &mut Vec<Part<'t, 's>>,
) -> Result<(), AllocError>
    ensures { IfOk result (λ done. plain_parts into.new ≡ plain_parts into.old ++ optional_parts false (optional_expression e.now)) }
{
    match e {
        None => Ok(()),
        Some(e) => put_expression(e, false, into),
    }
}
