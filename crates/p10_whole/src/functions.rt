//! Whether functions are whole (C99 6.9.1).

ghost use Rattle.std.specs.Prelude.{◌≡◌, ◌≤◌, true, All, IfOk, map, sum, take};
ghost use Rattle.p10_core.specs.Types.{plain_type};
ghost use Rattle.p10_core.specs.Rows.{is_scalar};
ghost use Rattle.p10_core.specs.Views.{plain_program, plain_types, plain_function, plain_variable};
ghost use Rattle.p10_core.specs.WholePrograms.{IsResult, IsWholeFunction, IsWholeVariable};
ghost use Rattle.p10_whole.specs.private.Headings.{HasSize, HasWholeHeading};
ghost use Rattle.p10_whole.specs.private.Shows.{Shows};

use crate::context::Context;
use crate::order::is_in_order;
use crate::parts::first_of;
use crate::statements::are_whole_statements;
use crate::types::{is_object_type, is_whole_type};
use p10_base::Limit;
use p10_core::{CType, Func, Program, Types, Variable};
use std::alloc::{AllocError, Global};

/// Whether the function with a number is whole.
pub(crate) fn is_whole_function(
    alloc: Global,
    program: &Program<'_>,
    number: usize,
    function: &Func<'_>,
) -> Result<bool, AllocError>
    ensures { IfOk result (λ b. Shows b (IsWholeFunction (plain_program program.now) number (plain_function function.now))) }
{
    let is_main = number == program.main as usize;
    let marked = is_main & program.mark.is_some();
    let ordered = is_in_order(function, marked, is_main & program.task.is_some());
    let heading = has_whole_heading(&program.types, function);
    let context = Context {
        program,
        number,
        function,
        in_loop: false,
        in_switch: false,
    };
    let mut scope = Vec::new(alloc);
    let body = are_whole_statements(&context, &mut scope, function.body.as_slice())?;
    Ok(ordered & (heading & body))
}

/// Whether the types and variables of a function are whole.
fn has_whole_heading(types: &Types<'_>, function: &Func<'_>) -> bool
    ensures { Shows result (HasWholeHeading (plain_types types.now) (plain_function function.now)) }
{
    let variables = function.vars.as_slice();
    let count = function.params as usize;
    if count > variables.len() {
        return false;
    }
    let parameters = are_scalar(first_of(variables, count)) & is_result(types, &function.result);
    parameters & (are_whole_variables(types, variables) & are_small(variables))
}

/// Whether each variable is a scalar.
fn are_scalar(variables: &[Variable<'_>]) -> bool
    ensures { Shows result (All (λ v. is_scalar v.type ≡ true) (map plain_variable variables.now)) }
{
    for variable in variables {
        if !variable.ty.is_scalar() {
            return false;
        }
    }
    true
}

/// Whether a type may be that of a result: a scalar, or `void`.
fn is_result(types: &Types<'_>, t: &CType) -> bool
    ensures { Shows result (IsResult (plain_types types.now) (plain_type t.now)) }
{
    is_whole_type(types, t) & (t.is_scalar() | t.is_void())
}

/// Whether each variable is whole.
fn are_whole_variables(types: &Types<'_>, variables: &[Variable<'_>]) -> bool
    ensures { Shows result (All (IsWholeVariable (plain_types types.now)) (map plain_variable variables.now)) }
{
    for variable in variables {
        if !is_whole_variable(types, variable) {
            return false;
        }
    }
    true
}

/// Whether a variable is whole: its bytes are the size of its type.
fn is_whole_variable(types: &Types<'_>, variable: &Variable<'_>) -> bool
    ensures { Shows result (IsWholeVariable (plain_types types.now) (plain_variable variable.now)) }
{
    let bytes = has_size(types, &variable.ty, variable.bytes);
    bytes & (!variable.frame | variable.ty.is_scalar())
}

/// Whether a type is one of objects with a size.
pub(crate) fn has_size(types: &Types<'_>, t: &CType, bytes: u64) -> bool
    ensures { Shows result (HasSize (plain_types types.now) (plain_type t.now) bytes) }
{
    if !is_object_type(types, t) {
        return false;
    }
    types.are_whole();
    types.size(t) == bytes
}

/// Whether the bytes of all variables are no more than an object may have.
fn are_small(variables: &[Variable<'_>]) -> bool
    ensures { Shows result (sum (map (λ v. v.bytes) (map plain_variable variables.now)) ≤ Limit.MOST_OBJECT_BYTES) }
{
    let mut total = 0;
    for variable in variables {
        if variable.bytes > Limit::MOST_OBJECT_BYTES - total {
            return false;
        }
        total += variable.bytes;
    }
    true
}
