//! Whether a program is whole.

ghost use Rattle.std.specs.Prelude.{◌≡◌, ℕ, true, Some, IfOk, map, slice_get};
ghost use Rattle.p10_core.specs.Typed.{PlainFunction};
ghost use Rattle.p10_core.specs.Views.{plain_program, plain_function};
ghost use Rattle.p10_core.specs.WholePrograms.{IsWholeFunction, IsWholeProgram};
ghost use Rattle.p10_whole.specs.private.Shows.{Shows};

use crate::functions::is_whole_function;
use crate::main_function::has_main;
use crate::objects::{are_few_bytes, are_rising, are_small_literals, are_whole_objects};
use p10_core::{Func, Program};
use std::alloc::{AllocError, Global};

/// Whether a program is whole, as all that reads it may rely on: true only where it is. Each program that elaboration
/// gives is. It takes memory for the numbers of the variables in scope, and for the values
/// of the labels of one `switch`, alone.
pub fn is_whole(alloc: Global, program: &Program<'_>) -> Result<bool, AllocError>
    ensures { IfOk result (λ whole. whole ≡ true → IsWholeProgram (plain_program program.now)) }
{
    let objects = program.globals.as_slice();
    let literals = program.literals.as_slice();
    let sizes = are_few_bytes(objects) & (are_rising(literals) & are_small_literals(literals));
    let outside = has_main(program) & are_whole_objects(program, objects);
    let functions = are_whole_functions(alloc, program, program.functions.as_slice())?;
    program.types.are_whole();
    Ok(sizes & (outside & functions))
}

/// Whether each function is whole in a program, by its place.
fn are_whole_functions(
    alloc: Global,
    program: &Program<'_>,
    all: &[Func<'_>],
) -> Result<bool, AllocError>
    ensures { IfOk result (λ b. Shows b ((n : ℕ) (f : PlainFunction) → slice_get (map plain_function all.now) n ≡ Some f → IsWholeFunction (plain_program program.now) n f)) }
{
    for (number, function) in all.iter().enumerate() {
        let whole = is_whole_function(alloc, program, number, function)?;
        if !whole {
            return Ok(false);
        }
    }
    Ok(true)
}
