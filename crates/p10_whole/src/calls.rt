//! Whether calls fit what they call (C99 6.5.2.2).

ghost use Rattle.p10_core.specs.Types.{plain_type};
ghost use Rattle.p10_core.specs.Views.{plain_values, plain_function};
ghost use Rattle.p10_core.specs.Whole.{ArgumentsFit, Calls};
ghost use Rattle.p10_core.specs.WholePrograms.{parameter_types};
ghost use Rattle.p10_whole.specs.private.Shows.{Shows};
ghost use Rattle.p10_whole.specs.private.Surroundings.{surroundings_in, types_of_variables};

use crate::around::{Around, function_at};
use crate::types::{are_compatible, is_unmarked};
use p10_core::{CType, Func, Value, Variable};

/// Whether a call of the function with a number is whole: `main` is never called.
#[tactic(auto, using(crate::proofs::Showing::shows_none))]
pub(crate) fn calls(around: &Around<'_, '_>, t: &CType, number: u32, arguments: &[Value]) -> bool
    ensures { Shows result (Calls (surroundings_in around.now) (plain_type t.now) number (plain_values arguments.now)) }
{
    if number == around.program.main {
        return false;
    }
    match function_at(around.program, number) {
        Some(function) => {
            fits_parameters(around, function, arguments)
                & (are_compatible(&around.program.types, t, &function.result) & is_unmarked(t))
        }
        None => false,
    }
}

/// Whether arguments fit the parameters of a function.
#[tactic(auto, using(crate::proofs::Showing::shows_none))]
fn fits_parameters(around: &Around<'_, '_>, function: &Func<'_>, arguments: &[Value]) -> bool
    ensures { Shows result (ArgumentsFit (surroundings_in around.now) (parameter_types (plain_function function.now)) (plain_values arguments.now)) }
{
    let variables = function.vars.as_slice();
    let count = function.params as usize;
    if count <= variables.len() {
        arguments_fit(around, &variables[..count], arguments)
    } else {
        false
    }
}

/// Whether arguments fit parameters.
#[tactic(auto, using(crate::proofs::Showing::shows_none))]
fn arguments_fit(around: &Around<'_, '_>, parameters: &[Variable<'_>], arguments: &[Value]) -> bool
    ensures { Shows result (ArgumentsFit (surroundings_in around.now) (types_of_variables parameters.now) (plain_values arguments.now)) }
{
    if parameters.len() != arguments.len() {
        return false;
    }
    for i in 0..arguments.len() {
        if !are_compatible(&around.program.types, &arguments[i].ty, &parameters[i].ty) {
            return false;
        }
    }
    true
}
