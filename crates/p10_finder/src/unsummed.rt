//! What is claimed of functions before their sums are counted.

ghost use Rattle.std.specs.Prelude.{◌≡◌, map, length, slice_get, IfOk};
ghost use Rattle.p10_core.specs.Views.{plain_function, plain_program};
ghost use Rattle.p10_core.specs.WholePrograms.{parameter_types};
ghost use Rattle.p10_cert.specs.Claims.{value_of, func_of, claims_of};
ghost use Rattle.p10_calls.specs.CallGraphs.{call_graph};
ghost use Rattle.p10_calls.specs.Ranks.{AreRanks};
ghost use Rattle.p10_approach.specs.Offers.{offers_if};
ghost use Rattle.p10_finder.specs.Answers.{HaveResults};
ghost use Rattle.p10_finder.specs.Finding.{loops_by};
ghost use Rattle.p10_finder.specs.Functions.{any_value as any_value_of};
ghost use Rattle.p10_finder.specs.private.Counting.{result_in, unsummed_by, AreUnsummed};

use crate::functions::{any_value, loops_of};
use crate::search::LoopsFound;
use p10_base::{Bounds, ListBuf};
use p10_cert::{Cert, FuncClaim, ValueClaim};
use p10_core::{Func, Program};
use std::alloc::{AllocError, Global};

/// The claims on all functions with these ranks, by claims with the program's results. It fails only where memory runs out; 2^32
/// functions count as that, too.
pub(crate) fn unsummed_claims(
    alloc: Global,
    program: &Program<'_>,
    results: &Cert,
    ranks: &[u32],
    approaching: bool,
) -> Result<Cert, AllocError>
    requires each { length ranks.now ≡ length program.now.functions }
    requires right { HaveResults (offers_if approaching) (plain_program program.now) (claims_of results.now) }
    requires ranks { AreRanks (call_graph (plain_program program.now)) ranks.now }
    ensures { IfOk result (λ claims. AreUnsummed (offers_if approaching) (plain_program program.now) (claims_of results.now) ranks.now (claims_of claims).funcs) }
{
    let functions = program.functions.as_slice();
    if functions.len() > u32::MAX as usize {
        return Err(AllocError);
    }
    let settled = results.funcs.as_slice();
    let mut funcs = Vec::with_capacity(alloc, functions.len())?;
    for (n, function) in functions.iter().enumerate() {
        let found = loops_of(alloc, program, results, n as u32, function, approaching)?;
        let returned = result_at(settled, n, function);
        funcs.push(unsummed_claim(alloc, ranks[n], function, found, returned)?)?;
    }
    Ok(Cert {
        funcs: ListBuf::of(funcs),
        total: Bounds {
            prefix: 0,
            turn: 0,
            calls: 0,
            bytes: 0,
        },
    })
}

/// The result that is claimed of the function with a number, or any value of its type where nothing is claimed.
#[tactic(auto, using(p10_absx::proofs::Entries::got_mapped))]
fn result_at(claims: &[FuncClaim], n: usize, function: &Func<'_>) -> ValueClaim
    ensures { value_of result ≡ result_in (slice_get (map func_of claims.now) n) (plain_function function.now) }
{
    match claims.get(n) {
        Some(claim) => claim.result,
        None => any_value(&function.result),
    }
}

/// The claim on a function with a rank, by its loops and its result.
fn unsummed_claim(
    alloc: Global,
    rank: u32,
    function: &Func<'_>,
    found: LoopsFound,
    returned: ValueClaim,
) -> Result<FuncClaim, AllocError>
    ensures { IfOk result (λ claim. func_of claim ≡ unsummed_by (loops_by found).claims (value_of returned) rank (plain_function function.now)) }
{
    let name = Vec::from_slice(alloc, function.name)?;
    let params = any_parameters(alloc, function)?;
    Ok(FuncClaim {
        name: ListBuf::of(name),
        rank,
        steps: 0,
        calls: 0,
        bytes: 0,
        alloc: false,
        params: ListBuf::of(params),
        result: returned,
        loops: ListBuf::of(found.claims),
    })
}

/// The claims on a function's parameters, of which only the types are known.
pub(crate) fn any_parameters(
    alloc: Global,
    function: &Func<'_>,
) -> Result<Vec<ValueClaim>, AllocError>
    ensures { IfOk result (λ params. map value_of params.items ≡ map any_value_of (parameter_types (plain_function function.now))) }
{
    let mut params = Vec::new(alloc);
    let variables = function.vars.as_slice();
    let count = variables.len().min(function.params as usize);
    for k in 0..count {
        params.push(any_value(&variables[k].ty))?;
    }
    Ok(params)
}
