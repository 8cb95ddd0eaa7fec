//! The variables whose addresses are taken in expressions and initialisers.

ghost use Rattle.std.specs.Prelude.{◌≡◌, ◌++◌, IfOk, map};
ghost use Rattle.p10_bindings.specs.Bound.{bound_in};
ghost use Rattle.p10_syn.specs.Trees.{expression_row, initializer_row};
ghost use Rattle.p10_syn.specs.Built.{expression_of};
ghost use Rattle.p10_syn.specs.BuiltStatements.{optional_expression, initializer_of, initial_of};
ghost use Rattle.p10_elabx.specs.Judging.{is_and};
ghost use Rattle.p10_elabs.specs.Addresses.{variable_named, taken_at, taken_by, taken_in, taken_in_all, taken_in_optional, taken_in_initializer, taken_in_items, taken_in_initial};

use p10_bindings::Bindings;
use p10_syn::{Expr, Form, Init, Sign};
use std::alloc::AllocError;

/// Names in scope, in the order of their declarations: a variable with its number, or something else.
pub(crate) type Names<'s> = Bindings<'s, Option<u32>>;

/// The variable that a name stands for.
fn variable_named(names: &Names<'_>, name: &[u8]) -> Option<u32>
    ensures { result ≡ variable_named (bound_in names.now) name.now }
{
    match names.find(name) {
        None => None,
        Some(number) => *number,
    }
}

/// Whether a sign is `&`.
fn is_and(sign: Sign) -> bool
    ensures { result ≡ is_and sign }
{
    matches!(sign, Sign::And)
}

/// Puts down the variable whose address `&` takes.
fn take_at(e: &Expr<'_>, names: &Names<'_>, into: &mut Vec<u32>) -> Result<(), AllocError>
    ensures { IfOk result (λ done. into.new.items ≡ into.old.items ++ taken_at (bound_in names.now) (expression_of e.now)) }
{
    match &e.form {
        Form::Name(name) => match variable_named(names, name.text) {
            None => Ok(()),
            Some(number) => {
                into.push(number)?;
                Ok(())
            }
        },
        _ => Ok(()),
    }
}

/// Puts down the variable whose address an operator takes.
fn take_by(
    is_address: bool,
    e: &Expr<'_>,
    names: &Names<'_>,
    into: &mut Vec<u32>,
) -> Result<(), AllocError>
    ensures { IfOk result (λ done. into.new.items ≡ into.old.items ++ taken_by is_address (bound_in names.now) (expression_of e.now)) }
{
    if is_address {
        take_at(e, names, into)
    } else {
        Ok(())
    }
}

/// Puts down the variables whose addresses are taken in an expression.
#[cycle(taking)]
pub(crate) fn take_in(
    e: &Expr<'_>,
    names: &Names<'_>,
    into: &mut Vec<u32>,
) -> Result<(), AllocError>
    ensures { IfOk result (λ done. into.new.items ≡ into.old.items ++ taken_in (bound_in names.now) (expression_of e.now)) }
{
    match &e.form {
        Form::Name(_) | Form::Number(_) | Form::Char(_) | Form::Str(_) => Ok(()),
        Form::Unary(sign, a) => {
            take_by(is_and(*sign), a, names, into)?;
            take_in(a, names, into)?;
            Ok(())
        }
        Form::Step(_, _, a) | Form::Member(a, _) | Form::Arrow(a, _) | Form::Cast(_, a) => {
            take_in(a, names, into)?;
            Ok(())
        }
        Form::Binary(_, a, b) | Form::Assign(_, a, b) | Form::Index(a, b) => {
            take_in(a, names, into)?;
            take_in(b, names, into)?;
            Ok(())
        }
        Form::Cond(c, a, b) => {
            take_in(c, names, into)?;
            take_in(a, names, into)?;
            take_in(b, names, into)?;
            Ok(())
        }
        Form::Call(f, all) => {
            take_in(f, names, into)?;
            take_in_all(all, names, into)?;
            Ok(())
        }
        Form::SizeofExpr(_) | Form::SizeofType(_) => Ok(()),
        Form::Comma(all) => {
            take_in_all(all, names, into)?;
            Ok(())
        }
    }
}

/// Puts down those of expressions in a row.
#[cycle(taking)]
fn take_in_all(all: &[Expr<'_>], names: &Names<'_>, into: &mut Vec<u32>) -> Result<(), AllocError>
    ensures { IfOk result (λ done. into.new.items ≡ into.old.items ++ taken_in_all (bound_in names.now) (expression_row (map expression_of all.now))) }
{
    for e in all {
        take_in(e, names, into)?;
    }
    Ok(())
}

/// Puts down those of an expression that may be left out.
pub(crate) fn take_in_optional(
    e: &Option<Expr<'_>>,
    names: &Names<'_>,
    into: &mut Vec<u32>,
) -> Result<(), AllocError>
    ensures { IfOk result (λ done. into.new.items ≡ into.old.items ++ taken_in_optional (bound_in names.now) (optional_expression e.now)) }
{
    match e {
        None => Ok(()),
        Some(e) => take_in(e, names, into),
    }
}

/// Puts down those of an initialiser.
#[cycle(initializing)]
fn take_in_initializer(
    i: &Init<'_>,
    names: &Names<'_>,
    into: &mut Vec<u32>,
) -> Result<(), AllocError>
    ensures { IfOk result (λ done. into.new.items ≡ into.old.items ++ taken_in_initializer (bound_in names.now) (initializer_of i.now)) }
{
    match i {
        Init::Value(e) => take_in(e, names, into),
        Init::Braced(_, items, _) => {
            take_in_items(items, names, into)?;
            Ok(())
        }
    }
}

/// Puts down those of the items of a list.
#[cycle(initializing)]
fn take_in_items(
    items: &[Init<'_>],
    names: &Names<'_>,
    into: &mut Vec<u32>,
) -> Result<(), AllocError>
    ensures { IfOk result (λ done. into.new.items ≡ into.old.items ++ taken_in_items (bound_in names.now) (initializer_row (map initializer_of items.now))) }
{
    for item in items {
        take_in_initializer(item, names, into)?;
    }
    Ok(())
}

/// Puts down those of an initialiser that may be left out.
pub(crate) fn take_in_initial(
    i: &Option<Init<'_>>,
    names: &Names<'_>,
    into: &mut Vec<u32>,
) -> Result<(), AllocError>
    ensures { IfOk result (λ done. into.new.items ≡ into.old.items ++ taken_in_initial (bound_in names.now) (initial_of i.now)) }
{
    match i {
        None => Ok(()),
        Some(i) => take_in_initializer(i, names, into),
    }
}
