//! Parameters where the body of a function begins (C99 6.9.1).

ghost use Rattle.std.specs.Prelude.{◌≡◌, ◌+◌, ◌++◌, ◌∷◌, List, IfOk, map};
ghost use Rattle.p10_syn.specs.Built.{identifier_of};
ghost use Rattle.p10_core.specs.Views.{plain_variable};
ghost use Rattle.p10_elabd.specs.Shapes.{PlainParameter};
ghost use Rattle.p10_elabd.specs.Views.{plain_standing, plain_parameter};
ghost use Rattle.p10_elabs.specs.FrameViews.{plain_frame};
ghost use Rattle.p10_elab.specs.Outer.{parameter_variable, parameter_variables};

use crate::known::number_of;
use p10_core::Variable;
use p10_elabd::{DeclaredParameter, Standing};
use p10_elabs::{Frame, bytes_of};
use p10_syn::Identifier;
use std::alloc::AllocError;

/// The parameters as the first variables; one without a name has a number and no variable.
pub(crate) fn parameter_variables<'s>(
    frame: &Frame<'_, 's>,
    standing: &Standing<'s>,
    parameters: &[DeclaredParameter<'s>],
) -> Result<Vec<Variable<'s>>, AllocError>
    ensures { IfOk result (λ all. map plain_variable all.items ≡ parameter_variables (plain_frame frame.now) (plain_standing standing.now) 0 (map plain_parameter parameters.now)) }
{
    let mut variables = Vec::new(frame.alloc);
    for place in 0..parameters.len() {
        put_parameter(
            frame,
            standing,
            number_of(place)?,
            &parameters[place],
            &mut variables,
        )?;
    }
    Ok(variables)
}

/// Puts the variable of a parameter after others, if the parameter has a name.
fn put_parameter<'s>(
    frame: &Frame<'_, 's>,
    standing: &Standing<'s>,
    number: u32,
    parameter: &DeclaredParameter<'s>,
    variables: &mut Vec<Variable<'s>>,
) -> Result<(), AllocError>
    ensures { IfOk result (λ _. (rest : List PlainParameter) → map plain_variable variables.new.items ++ parameter_variables (plain_frame frame.now) (plain_standing standing.now) (number + 1) rest ≡ map plain_variable variables.old.items ++ parameter_variables (plain_frame frame.now) (plain_standing standing.now) number (plain_parameter parameter.now ∷ rest)) }
{
    match parameter.name {
        None => Ok(()),
        Some(name) => {
            let variable = parameter_variable(frame, standing, number, parameter, name)?;
            variables.push(variable)?;
            Ok(())
        }
    }
}

/// A parameter as a variable of its function.
fn parameter_variable<'s>(
    frame: &Frame<'_, 's>,
    standing: &Standing<'s>,
    number: u32,
    parameter: &DeclaredParameter<'s>,
    name: Identifier<'s>,
) -> Result<Variable<'s>, AllocError>
    ensures { IfOk result (λ v. plain_variable v ≡ parameter_variable (plain_frame frame.now) (plain_standing standing.now) number (plain_parameter parameter.now) (identifier_of name.entry)) }
{
    let bytes = bytes_of(&standing.scope.types, &parameter.ty)?;
    let ty = parameter.ty.copy(frame.alloc)?;
    Ok(Variable {
        name: name.text,
        ty,
        bytes,
        frame: frame.is_frame_variable(number, &parameter.ty),
        span: name.at.span,
    })
}
