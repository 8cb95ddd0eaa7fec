//! Claims on functions.

ghost use Rattle.std.specs.Prelude.{◌≡◌, IfOk, Some, map, option_map, slice_get};
ghost use Rattle.p10_core.specs.Views.{plain_function, plain_program, plain_statement};
ghost use Rattle.p10_core.specs.WholePrograms.{parameter_types};
ghost use Rattle.p10_cert.specs.Claims.{value_of, func_of, claims_of};
ghost use Rattle.p10_fit.specs.Sites.{loop_number, loop_number_at, task_loop_number};
ghost use Rattle.p10_fit.specs.Fits.{fits_types, fits_heading, fits_function, unfit};

use crate::loops::fits_loops;
use crate::values::{fits_type, fits_types};
use p10_cert::{Cert, FuncClaim, ValueClaim};
use p10_core::{Func, Program, Stmt, StmtForm};
use std::alloc::{AllocError, Global};

/// The function at which a certificate doesn't speak of a program, by its number: the first of which its claim doesn't speak, or that
/// has no claim; `main` where there are more claims than functions. None where the certificate speaks of the program.
///
/// # Errors
///
/// Out of memory.
pub fn unfit(
    alloc: Global,
    program: &Program<'_>,
    certificate: &Cert,
) -> Result<Option<usize>, AllocError>
    ensures { IfOk result (λ at. at ≡ unfit (plain_program program.now) (claims_of certificate.now)) }
{
    let mut functions = program.functions.as_slice();
    let mut claims = certificate.funcs.as_slice();
    let mut number = 0;
    while let [function, others @ ..] = functions {
        match claims {
            [claim, further @ ..] => {
                let fits = fits_function(alloc, program, number, function, claim)?;
                if !fits {
                    return Ok(Some(number));
                }
                functions = others;
                claims = further;
                number += 1;
            }
            [] => return Ok(Some(number)),
        }
    }
    if claims.is_empty() {
        Ok(None)
    } else {
        Ok(Some(program.main as usize))
    }
}

/// Whether a claim speaks of the function with a number.
///
/// # Errors
///
/// Out of memory.
pub fn fits_function(
    alloc: Global,
    program: &Program<'_>,
    number: usize,
    function: &Func<'_>,
    claim: &FuncClaim,
) -> Result<bool, AllocError>
    ensures { IfOk result (λ b. b ≡ fits_function (plain_program program.now) number (plain_function function.now) (func_of claim.now)) }
{
    if !fits_heading(function, claim) {
        return Ok(false);
    }
    let task = task_loop_number(program, number, function);
    fits_loops(alloc, function, task, claim.loops.as_slice())
}

/// Whether the name, the parameters and the result of a function are those of a claim.
fn fits_heading(function: &Func<'_>, claim: &FuncClaim) -> bool
    ensures { result ≡ fits_heading (plain_function function.now) (func_of claim.now) }
{
    claim.name.as_slice() == function.name
        && fits_parameters(function, claim.params.as_slice())
        && fits_type(&function.result, claim.result)
}

/// Whether these may be claimed of the parameters of a function, one after the other.
fn fits_parameters(function: &Func<'_>, claims: &[ValueClaim]) -> bool
    ensures { result ≡ fits_types (parameter_types (plain_function function.now)) (map value_of claims.now) }
{
    let variables = function.vars.as_slice();
    let count = variables.len().min(function.params as usize);
    fits_types(&variables[..count], claims)
}

/// The number of the task loop among the loops of the function with a number, if it has the task.
pub fn task_loop_number(program: &Program<'_>, number: usize, function: &Func<'_>) -> Option<u32>
    ensures { result ≡ task_loop_number (plain_program program.now) number (plain_function function.now) }
{
    if number != program.main as usize {
        return None;
    }
    match program.task {
        Some(place) => loop_number_at(function.body.as_slice(), place),
        None => None,
    }
}

/// The number of the loop that stands at a place among items.
fn loop_number_at(items: &[Stmt], place: u32) -> Option<u32>
    ensures { result ≡ loop_number_at (map plain_statement items.now) (Some place) }
{
    match item_at(items, place) {
        Some(item) => loop_number(item),
        None => None,
    }
}

/// The item at a place.
fn item_at(items: &[Stmt], place: u32) -> Option<&Stmt>
    ensures { option_map (λ x. plain_statement x.now) result ≡ slice_get (map plain_statement items.now) place }
{
    items.get(place as usize)
}

/// The number of the loop that an item is, if it is one.
fn loop_number(item: &Stmt) -> Option<u32>
    ensures { result ≡ loop_number (Some (plain_statement item.now)) }
{
    match &item.form {
        StmtForm::Loop(head, _, _, _, _) => Some(head.number),
        _ => None,
    }
}
