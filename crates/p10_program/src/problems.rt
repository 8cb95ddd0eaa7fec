//! What is wrong with the names that a program uses.

ghost use Rattle.std.specs.Prelude.{◌≡◌, ◌++◌, None, IfOk};
ghost use Rattle.p10_core.specs.Views.{plain_program};
ghost use Rattle.p10_program.specs.FirstProblems.{first_with};
ghost use Rattle.p10_program.specs.Mains.{calls_of_main, missing_main};
ghost use Rattle.p10_program.specs.ProgramNodes.{nodes_of_program};
ghost use Rattle.p10_program.specs.Undefined.{undefined_among};

use crate::main_calls::first_of_main;
use crate::program_nodes::nodes_of_program;
use crate::undefined::first_undefined;
use p10_core::Program;
use p10_elabx::Problem;
use std::alloc::{AllocError, Global};

/// The first use in a program of a function or object that isn't defined, where those that are defined have the numbers below
/// `functions` and `objects` (row S27 of the subset).
pub fn undefined_in(
    alloc: Global,
    functions: usize,
    objects: usize,
    program: &Program<'_>,
) -> Result<Option<Problem>, AllocError>
    ensures { IfOk result (λ found. found ≡ first_with None (undefined_among functions objects (nodes_of_program (plain_program program.now)))) }
{
    let mut nodes = nodes_of_program(
        alloc,
        program.functions.as_slice(),
        program.globals.as_slice(),
    )?;
    first_undefined(functions, objects, &mut nodes)
}

/// The first problem of `main` in a program, by the number of that function, if it is defined, and what is wrong with its declarations
/// (row S28 of the subset).
pub fn main_problem_in(
    alloc: Global,
    main: Option<usize>,
    declared: &[Problem],
    program: &Program<'_>,
) -> Result<Option<Problem>, AllocError>
    ensures { IfOk result (λ found. found ≡ first_with None (missing_main main (declared.now ++ calls_of_main main (nodes_of_program (plain_program program.now))))) }
{
    let mut nodes = nodes_of_program(
        alloc,
        program.functions.as_slice(),
        program.globals.as_slice(),
    )?;
    first_of_main(main, declared, &mut nodes)
}
