//! A program of its structures, objects and functions.

ghost use Rattle.std.specs.Prelude.{◌≡◌, ◌++◌, IfOk, map};
ghost use Rattle.p10_core.specs.Views.{plain_types, plain_function, plain_object, plain_literal, plain_seen, plain_program};
ghost use Rattle.p10_program.specs.Assembly.{after_place, program_with};
ghost use Rattle.p10_program.specs.Literals.{literals_among};
ghost use Rattle.p10_program.specs.ProgramNodes.{nodes_of_functions, nodes_of_objects};

use crate::literals::literals_among;
use crate::pragmas::pragma_in;
use crate::program_nodes::nodes_of_program;
use p10_base::ListBuf;
use p10_core::{Func, Global as StaticObject, Literal, MarkKind, Program, Seen, Types};
use std::alloc::{AllocError, Global};

/// The program of structures, objects and functions; `main` is the number of that function, if it is there. It fails only where memory
/// runs out; 2^32 functions or items of `main` count as that, too.
pub fn program_with<'s>(
    alloc: Global,
    types: Types<'s>,
    objects: Vec<StaticObject<'s>>,
    functions: Vec<Func<'s>>,
    main: Option<usize>,
    outside: Vec<Seen<'s>>,
) -> Result<Program<'s>, AllocError>
    ensures { IfOk result (λ p. plain_program p ≡ program_with (plain_types types.entry) (map plain_object objects.entry.items) (map plain_function functions.entry.items) main (map plain_seen outside.entry.items)) }
{
    let literals = literals_in(alloc, functions.as_slice(), objects.as_slice())?;
    let mark = number_there(pragma_in(MarkKind::InitDone, main, functions.as_slice()))?;
    let task = number_after(pragma_in(MarkKind::TaskLoop, main, functions.as_slice()))?;
    let main = number_of(main.unwrap_or(0))?;
    Ok(Program {
        types,
        globals: ListBuf::of(objects),
        functions: ListBuf::of(functions),
        literals: ListBuf::of(literals),
        main,
        mark,
        task,
        outside: ListBuf::of(outside),
    })
}

/// The string literals in the trees of functions and objects.
fn literals_in(
    alloc: Global,
    functions: &[Func<'_>],
    objects: &[StaticObject<'_>],
) -> Result<Vec<Literal>, AllocError>
    ensures { IfOk result (λ all. map plain_literal all.items ≡ literals_among (nodes_of_functions (map plain_function functions.now) ++ nodes_of_objects (map plain_object objects.now))) }
{
    let mut nodes = nodes_of_program(alloc, functions, objects)?;
    literals_among(alloc, &mut nodes)
}

/// A place as a number; there is none where it is over 2^32 - 1.
fn number_of(place: usize) -> Result<u32, AllocError>
    ensures { IfOk result (λ n. n ≡ place) }
{
    if place > 4_294_967_295 {
        return Err(AllocError);
    }
    Ok(place as u32)
}

/// A place as a number, if it is there.
fn number_there(place: Option<usize>) -> Result<Option<u32>, AllocError>
    ensures { IfOk result (λ n. n ≡ place) }
{
    match place {
        Some(place) => {
            let number = number_of(place)?;
            Ok(Some(number))
        }
        None => Ok(None),
    }
}

/// The number after a place, if it is there.
fn number_after(place: Option<usize>) -> Result<Option<u32>, AllocError>
    ensures { IfOk result (λ n. n ≡ after_place place) }
{
    match place {
        Some(place) => {
            if place >= 4_294_967_295 {
                return Err(AllocError);
            }
            let number = number_of(place + 1)?;
            Ok(Some(number))
        }
        None => Ok(None),
    }
}
