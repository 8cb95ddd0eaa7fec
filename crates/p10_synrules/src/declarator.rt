//! The parts of declarators.

ghost use Rattle.std.specs.Prelude.{◌≡◌, ◌++◌, IfOk, map};
ghost use Rattle.p10_syn.specs.Trees.{parameter_row};
ghost use Rattle.p10_syn.specs.Built.{declarator_of, parameter_of};
ghost use Rattle.p10_synrules.specs.Parts.{declared_parts, declarator_parts, parameters_parts, parameter_parts};
ghost use Rattle.p10_synrules.specs.private.Views.{plain_parts};

use crate::expression::put_boxed;
use crate::part::{Part, push_one, put_name};
use crate::specifier::{make_types, put_specifiers};
use p10_syn::{Declarator, Parameter};
use std::alloc::AllocError;

/// Puts down a declarator and the parts within it. It may make its name a typedef name.
#[cycle(walking)]
pub(crate) fn put_declared<'t, 's>(
    declarator: &'t Declarator<'s>,
    typedef: bool,
    within: bool,
    into: &mut Vec<Part<'t, 's>>,
) -> Result<(), AllocError>
    ensures { IfOk result (λ done. plain_parts into.new ≡ plain_parts into.old ++ declared_parts typedef within (declarator_of declarator.now)) }
{
    push_one(into, Part::Declarator(typedef, declarator))?;
    put_declarator(declarator, within, into)?;
    Ok(())
}

/// Puts down the parts within a declarator: its name, its lengths and its parameters.
#[cycle(walking)]
fn put_declarator<'t, 's>(
    declarator: &'t Declarator<'s>,
    within: bool,
    into: &mut Vec<Part<'t, 's>>,
) -> Result<(), AllocError>
    ensures { IfOk result (λ done. plain_parts into.new ≡ plain_parts into.old ++ declarator_parts within (declarator_of declarator.now)) }
{
    match declarator {
        Declarator::Named(name) => put_name(name, into),
        Declarator::Unnamed(_) => Ok(()),
        Declarator::Pointer(_, _, inner) | Declarator::Parenthesised(_, inner) => {
            put_declarator(inner, within, into)?;
            Ok(())
        }
        Declarator::Array(_, inner, _, size) => {
            put_declarator(inner, within, into)?;
            put_boxed(size, within, into)?;
            Ok(())
        }
        Declarator::Function(_, inner, _, parameters, _) => {
            put_declarator(inner, within, into)?;
            put_parameters(parameters, within, into)?;
            Ok(())
        }
    }
}

/// Puts down the parts of parameters.
#[cycle(walking)]
fn put_parameters<'t, 's>(
    parameters: &'t [Parameter<'s>],
    within: bool,
    into: &mut Vec<Part<'t, 's>>,
) -> Result<(), AllocError>
    ensures { IfOk result (λ done. plain_parts into.new ≡ plain_parts into.old ++ parameters_parts within (parameter_row (map parameter_of parameters.now))) }
{
    for parameter in parameters {
        put_parameter(parameter, within, into)?;
    }
    Ok(())
}

/// Puts down the parts of a parameter.
#[cycle(walking)]
fn put_parameter<'t, 's>(
    parameter: &'t Parameter<'s>,
    within: bool,
    into: &mut Vec<Part<'t, 's>>,
) -> Result<(), AllocError>
    ensures { IfOk result (λ done. plain_parts into.new ≡ plain_parts into.old ++ parameter_parts within (parameter_of parameter.now)) }
{
    put_specifiers(&parameter.specs, within, into)?;
    let typedef = make_types(&parameter.specs);
    put_declared(&parameter.declarator, typedef, within, into)?;
    Ok(())
}
