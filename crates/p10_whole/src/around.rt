//! What stands round a value: the program, and the variables in scope.

ghost use Rattle.std.specs.Prelude.{◌≡◌, option_map, option_copied, slice_get, true, map};
ghost use Rattle.p10_core.specs.Views.{plain_program, plain_object, plain_function, plain_variable};
ghost use Rattle.p10_core.specs.WholePrograms.{is_among};
ghost use Rattle.p10_whole.specs.private.Shows.{Shows};
ghost use Rattle.p10_whole.specs.private.Surroundings.{scope_of};

use p10_core::{Func, Global, Program, Variable};

/// What stands round a value.
#[derive(Clone, Copy)]
pub(crate) struct Around<'a, 's> {
    pub program: &'a Program<'s>,
    /// The variables of the function; none at file scope.
    pub variables: &'a [Variable<'s>],
    /// How many of them, the first ones, are parameters.
    pub parameters: u32,
    /// The numbers of the other variables in scope, which rise.
    pub scope: &'a [u32],
}

/// The object with a number.
pub(crate) fn object_at<'a, 's>(program: &'a Program<'s>, number: u32) -> Option<&'a Global<'s>>
    ensures { option_map plain_object (option_copied result) ≡ slice_get (plain_program program.now).objects number }
{
    program.globals.as_slice().get(number as usize)
}

/// The function with a number.
pub(crate) fn function_at<'a, 's>(program: &'a Program<'s>, number: u32) -> Option<&'a Func<'s>>
    ensures { option_map plain_function (option_copied result) ≡ slice_get (plain_program program.now).functions number }
{
    program.functions.as_slice().get(number as usize)
}

/// The variable with a number.
pub(crate) fn variable_at<'a, 's>(
    variables: &'a [Variable<'s>],
    number: u32,
) -> Option<&'a Variable<'s>>
    ensures { option_map plain_variable (option_copied result) ≡ slice_get (map plain_variable variables.now) number }
{
    variables.get(number as usize)
}

/// Whether the variable with a number is in scope.
pub(crate) fn is_in_scope(around: &Around<'_, '_>, number: u32) -> bool
    ensures { Shows result (is_among number (scope_of around.now.parameters around.now.scope.now) ≡ true) }
{
    (number < around.parameters) | around.scope.binary_search(&number).is_ok()
}
