//! The names of functions, at which a certificate doesn't speak of a program.

ghost use Rattle.std.specs.Prelude.{◌≡◌, option_copied, option_map, slice_get};
ghost use Rattle.p10_core.specs.Views.{plain_function, plain_program};
ghost use Rattle.p10_check.specs.Places.{name_at};

use p10_base::Span;
use p10_core::{Func, Program};

/// The name of the function with a number. In a whole program there is one.
pub fn name_at(program: &Program<'_>, number: usize) -> Span
    ensures { result ≡ name_at (plain_program program.now) number }
{
    match function_at(program, number) {
        Some(function) => function.span,
        None => Span {
            file: 0,
            start: 0,
            end: 0,
        },
    }
}

/// The function with a number.
fn function_at<'a, 's>(program: &'a Program<'s>, number: usize) -> Option<&'a Func<'s>>
    ensures { option_map plain_function (option_copied result) ≡ slice_get (plain_program program.now).functions number }
{
    program.functions.as_slice().get(number)
}
