//! What is claimed of one function, where claims of the functions that it calls stand.

ghost use Rattle.std.specs.Prelude.{◌≡◌, map, IfOk, OnOk};
ghost use Rattle.std.specs.Option.{option_map};
ghost use Rattle.p10_core.specs.Types.{plain_type};
ghost use Rattle.p10_core.specs.Views.{plain_variable, plain_function, plain_program};
ghost use Rattle.p10_range.specs.Ranges.{interval_of};
ghost use Rattle.p10_cert.specs.Claims.{value_of, claims_of};
ghost use Rattle.p10_approach.specs.Offers.{offers_if};
ghost use Rattle.p10_finder.specs.Finding.{loops_by};
ghost use Rattle.p10_finder.specs.Functions.{any_value as any_value_of, loops_of as loops_of_function, result_by as result_of_range, result_of as result_of_function, search_in as search_of};
ghost use Rattle.p10_finder.specs.private.Looking.{search_by, returned_after};

use crate::looping::have_loop;
use crate::search::{LoopsFound, Search};
use crate::walk::loops_in_all;
use p10_absx::{Env, values};
use p10_cert::{Cert, ValueClaim};
use p10_core::{CType, Func, Program, Variable, integer_of};
use p10_fit::task_loop_number;
use p10_pass::pass_statements;
use p10_range::Range;
use std::alloc::{AllocError, Global};

/// What is found of one function.
#[derive(Drop)]
pub struct FunctionFound {
    /// Its loops.
    pub loops: LoopsFound,
    /// The claim of its result.
    pub result: ValueClaim,
}

/// What is found of the function with a number, where claims of the functions that it calls stand: their results count. It fails only
/// where memory runs out; 2^32 variables or nested loops count as that, too.
pub fn function_found(
    alloc: Global,
    program: &Program<'_>,
    claims: &Cert,
    number: u32,
    function: &Func<'_>,
    approaching: bool,
) -> Result<FunctionFound, AllocError>
    ensures loops { IfOk result (λ found. loops_by found.loops ≡ loops_of_function (offers_if approaching) (plain_program program.now) (claims_of claims.now) number (plain_function function.now)) }
    ensures result { IfOk result (λ found. value_of found.result ≡ result_of_function (offers_if approaching) (plain_program program.now) (claims_of claims.now) number (plain_function function.now)) }
{
    let loops = loops_of(alloc, program, claims, number, function, approaching)?;
    let result = result_of(alloc, program, claims, number, function, &loops)?;
    Ok(FunctionFound { loops, result })
}

/// What is claimed of a value of which only the type is known.
pub fn any_value(t: &CType) -> ValueClaim
    ensures { value_of result ≡ any_value_of (plain_type t.now) }
{
    if t.is_integer() {
        ValueClaim::Ints(values(integer_of(t)))
    } else if t.is_pointer() {
        ValueClaim::Pointer
    } else {
        ValueClaim::Void
    }
}

/// Where the loops of the function with a number are looked for.
fn search_in<'a, 's>(
    program: &Program<'_>,
    claims: &'a Cert,
    number: u32,
    function: &'a Func<'s>,
    approaching: bool,
) -> Search<'a, 's>
    ensures search { search_by result ≡ search_of (offers_if approaching) (plain_program program.now) (claims_of claims.now) number (plain_function function.now) }
    ensures depth { result.depth ≡ 0 }
{
    Search {
        calls: claims,
        function,
        number,
        variables: function.vars.as_slice(),
        task: task_loop_number(program, number as usize, function),
        approaching,
        depth: 0,
    }
}

/// The loops of the function with a number.
pub(crate) fn loops_of(
    alloc: Global,
    program: &Program<'_>,
    claims: &Cert,
    number: u32,
    function: &Func<'_>,
    approaching: bool,
) -> Result<LoopsFound, AllocError>
    ensures { IfOk result (λ found. loops_by found ≡ loops_of_function (offers_if approaching) (plain_program program.now) (claims_of claims.now) number (plain_function function.now)) }
{
    let mut found = LoopsFound {
        claims: Vec::new(alloc),
        unbounded: Vec::new(alloc),
        approaches: Vec::new(alloc),
    };
    if !have_loop(function.body.as_slice()) {
        return Ok(found);
    }
    let start = Some(Env::start(alloc, function)?);
    let search = search_in(program, claims, number, function, approaching);
    loops_in_all(alloc, &search, function.body.as_slice(), &start, &mut found)?;
    Ok(found)
}

/// The hull of the ranges that the function with a number returns, by the claims of its loops, if a `return` of a value is reached.
fn range_returned(
    alloc: Global,
    program: &Program<'_>,
    claims: &Cert,
    number: u32,
    function: &Func<'_>,
    found: &LoopsFound,
) -> Result<Option<Range>, AllocError>
    ensures { IfOk result (λ range. option_map interval_of range ≡ returned_after (plain_program program.now) (claims_of claims.now) number (plain_function function.now) (loops_by found.now)) }
{
    let start = Env::start(alloc, function)?;
    let search = search_in(program, claims, number, function, false);
    let left = pass_statements(
        alloc,
        &found.manner(&search),
        function.body.as_slice(),
        start,
    )?;
    Ok(left.returned)
}

/// What is claimed of a result of a type: the range that is returned, or any value of the type.
fn result_by(t: &CType, returned: Option<Range>) -> ValueClaim
    ensures { value_of result ≡ result_of_range (plain_type t.now) (option_map interval_of returned) }
{
    match returned {
        Some(range) => {
            if t.is_integer() {
                ValueClaim::Ints(range)
            } else {
                any_value(t)
            }
        }
        None => any_value(t),
    }
}

/// What is claimed of the result of the function with a number, by the claims of its loops.
fn result_of(
    alloc: Global,
    program: &Program<'_>,
    claims: &Cert,
    number: u32,
    function: &Func<'_>,
    found: &LoopsFound,
) -> Result<ValueClaim, AllocError>
    ensures { IfOk result (λ claim. value_of claim ≡ result_of_range (plain_type function.now.result) (returned_after (plain_program program.now) (claims_of claims.now) number (plain_function function.now) (loops_by found.now))) }
{
    let returned = range_returned(alloc, program, claims, number, function, found)?;
    Ok(result_by(&function.result, returned))
}
